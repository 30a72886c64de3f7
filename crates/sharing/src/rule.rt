// What a sharing rule is.
ghost use Rattle.std.specs.Prelude.{◌≡◌, ℕ, ◌≤◌, List};
ghost use Rattle.sharing.specs.Sharing.{SharingLaw, share_answer};

use refusal::Refusal;

// A way to divide an amount over weights in whole euros.
//
// A rule means a share for every amount, list of weights and position (`share`), and it keeps the sharing law
// wherever it does not refuse. Asking changes nothing.
pub trait SharingRule {
    // The most weights that the rule takes.
    const LONGEST: usize;

    ghost LONGEST: { ℕ };

    ghost share: { Self → ℕ → List ℕ → ℕ → ℕ };

    // The most weights that the rule takes, as a function.
    fn longest_list() -> usize
        ensures { result ≡ LONGEST }
    {
        Self::LONGEST
    }

    // The share of `amount` at `position`, counted from 0.
    fn share(&self, amount: u64, weights: &[u64], position: usize) -> Result<u64, Refusal>
        ensures { result ≡ share_answer LONGEST (share self.now) amount weights.now position };

    ghost twelve: { 12 ≤ LONGEST };

    ghost sharing: { (rule : Self) → SharingLaw LONGEST (share rule) };
}
