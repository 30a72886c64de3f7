// The grounds for saying no, each with its number.
ghost use Rattle.std.specs.Prelude.{◌≡◌, Some, None, MatchResult};
ghost use Rattle.refusal.specs.Grounds.{NumbersNameGrounds, ground_number, ground_numbered};

use thiserror::Error;

// One plain sentence each. A call tells the first ground, in the order of these numbers, that stands against it.
#[derive(Clone, Copy, PartialEq, Eq, Debug, Error)]
pub enum Ground {
    #[error("The page is longer than 60,000 bytes.")]
    PageTooLong = 1,
    #[error("The answer buffer is shorter than 62 bytes.")]
    BufferTooSmall = 2,
    #[error("The row's letter is unknown, Y stands elsewhere than first, or the first row is not Y.")]
    UnknownLetter = 3,
    #[error("The row's length is not its letter's, or no line feed ends it.")]
    WrongLength = 4,
    #[error("A field is malformed.")]
    MalformedField = 5,
    #[error("A number is out of bounds, a date is no day of the year, the last date precedes the first, or a position is not in the list.")]
    OutOfBounds = 6,
    #[error("The edition does not know the category.")]
    UnknownCategory = 7,
    #[error("There is no such system or contract.")]
    NotThere = 8,
    #[error("The table is full.")]
    TableFull = 9,
    #[error("The system is fixed.")]
    SystemFixed = 10,
    #[error("The upper system's level number is not smaller than the lower one's.")]
    LevelNotLower = 11,
    #[error("The two systems are coupled already.")]
    CoupledAlready = 12,
    #[error("Accepted costs less those taken back would exceed 5,000,000,000 euros.")]
    CostsTooHigh = 13,
    #[error("More is taken back than stands at the system.")]
    MoreThanStands = 14,
    #[error("There are more weights or takers than the sharing rule's longest list.")]
    ListTooLong = 15,
    #[error("The weights that a share goes by total 0.")]
    NoWeight = 16,
    #[error("Euros stand at the system to fix, or a system coupled above it is not fixed.")]
    NotSettled = 17,
    #[error("A used carrier has volume 0, or an unused one has a volume.")]
    VolumeUnfit = 18,
    #[error("A tariff would exceed 100,000,000 ten-thousandths of a euro.")]
    TariffTooHigh = 19,
    #[error("The system is not fixed.")]
    SystemNotFixed = 20,
    #[error("The yearly charge would exceed 5,000,000,000 cents.")]
    ChargeTooHigh = 21,
    #[error("The contract has a draft out.")]
    DraftOut = 22,
    #[error("No month is left to bill.")]
    NoMonthLeft = 23,
    #[error("The reading is below the last issued one.")]
    ReadingFell = 24,
    #[error("A metered line would exceed 5,000,000,000 cents.")]
    LineTooHigh = 25,
    #[error("The draft is not out here.")]
    DraftNotOut = 26,
}

impl Ground {
    // The number by which the ground is told.
    pub fn number(self) -> u64
        ensures { result ≡ ground_number self }
    {
        self as u64
    }

    // The ground with this number, if there is one.
    pub fn from_number(number: u64) -> Option<Ground>
        ensures { result ≡ ground_numbered number }
    {
        Ground::try_from(number).ok()
    }
}

// A number that no ground has.
#[derive(Clone, Copy, PartialEq, Eq, Debug, Error)]
#[error("no ground has the number {0}")]
pub struct UnknownGround(pub u64);

impl TryFrom<u64> for Ground {
    type Error = UnknownGround;

    ghost try_from_gives = { λ number r. MatchResult r (λ why. ground_numbered number ≡ Some why) (λ e. (ground_numbered number ≡ None) × (e.0 ≡ number)) };

    fn try_from(number: u64) -> Result<Ground, UnknownGround> {
        match number {
            1 => Ok(Ground::PageTooLong),
            2 => Ok(Ground::BufferTooSmall),
            3 => Ok(Ground::UnknownLetter),
            4 => Ok(Ground::WrongLength),
            5 => Ok(Ground::MalformedField),
            6 => Ok(Ground::OutOfBounds),
            7 => Ok(Ground::UnknownCategory),
            8 => Ok(Ground::NotThere),
            9 => Ok(Ground::TableFull),
            10 => Ok(Ground::SystemFixed),
            11 => Ok(Ground::LevelNotLower),
            12 => Ok(Ground::CoupledAlready),
            13 => Ok(Ground::CostsTooHigh),
            14 => Ok(Ground::MoreThanStands),
            15 => Ok(Ground::ListTooLong),
            16 => Ok(Ground::NoWeight),
            17 => Ok(Ground::NotSettled),
            18 => Ok(Ground::VolumeUnfit),
            19 => Ok(Ground::TariffTooHigh),
            20 => Ok(Ground::SystemNotFixed),
            21 => Ok(Ground::ChargeTooHigh),
            22 => Ok(Ground::DraftOut),
            23 => Ok(Ground::NoMonthLeft),
            24 => Ok(Ground::ReadingFell),
            25 => Ok(Ground::LineTooHigh),
            26 => Ok(Ground::DraftNotOut),
            _ => Err(UnknownGround(number)),
        }
    }
}

// The number of each ground names that ground and no other.
pub fn numbers_name_grounds()
    ensures { NumbersNameGrounds }
{}
