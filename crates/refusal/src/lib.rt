// Why a call was refused: one of 26 grounds, and the place of the argument or the system that it is about.
#![tactic(auto)]

mod ground;
mod refusal;

pub use ground::{Ground, UnknownGround, numbers_name_grounds};
pub use refusal::Refusal;

#[cfg(test)]
mod tests {
    use super::*;
    use std::test::Fail;

    #[test]
    fn numbers_lead_back(rt: HostRuntime) -> Result<(), Fail> {
        for number in 1..27 {
            let ground = Ground::from_number(number).ok_or("no ground has this number")?;
            assert_eq!(rt; ground.number(), number);
        }
        assert_eq!(rt; Ground::from_number(0), None);
        assert_eq!(rt; Ground::from_number(27), None);
        Ok(())
    }

    #[test]
    fn refusals_are_told(rt: HostRuntime) -> Result<(), Fail> {
        let at_five = Refusal::at(Ground::NotThere, 5);
        let told = format!(in rt.alloc(); "{at_five}")?;
        assert_eq!(rt;
            told.as_str(),
            "refused by ground 8, place 5: There is no such system or contract."
        );
        let placeless = Refusal::of(Ground::TableFull);
        let told = format!(in rt.alloc(); "{placeless}")?;
        assert_eq!(rt; told.as_str(), "refused by ground 9: The table is full.");
        Ok(())
    }
}
