// The plain tables of a tariff year. Systems, couplings and contracts are numbered from 1 in their order.
use billing::Fixing;

// A grid level of the operator, with its consumers' kW and MWh, and where its euros are. Level and category are numbers: levels
// are compared by rank and passed in turn, so that an enum would be turned into its number at each use, and which categories
// there are is the edition's to say.
#[derive(Clone, Copy)]
pub struct System {
    pub level: u64,
    pub category: u64,
    pub kw: u64,
    pub mwh: u64,
    pub permille: u64,
    pub standing: u64,
    pub landed: u64,
    pub fixing: Option<Fixing>,
}

// What an upper system hands to a lower one goes by the kW and MWh exchanged.
#[derive(Clone, Copy)]
pub struct Coupling {
    pub upper: u64,
    pub lower: u64,
    pub kw: u64,
    pub mwh: u64,
}

// The month's kWmax and reading of the draft that is out.
#[derive(Clone, Copy)]
pub struct Started {
    pub kwmax: u64,
    pub reading: u64,
}

// The cents of a contract issued and waived to date.
#[derive(Clone, Copy)]
pub struct Cents {
    pub yearly: u64,
    pub kwmax: u64,
    pub kwh: u64,
    pub waived: u64,
}

// A consumer's contract: `opening` is its first reading, `month` the next one to bill, `kwmax` the sum of those issued,
// `reading` the last issued one.
#[derive(Clone, Copy)]
pub struct Contract {
    pub system: u64,
    pub kw: u64,
    pub fee: u64,
    pub first: u64,
    pub last: u64,
    pub opening: u64,
    pub yearly: u64,
    pub month: u64,
    pub kwmax: u64,
    pub reading: u64,
    pub cents: Cents,
    pub started: Option<Started>,
}

// `net` is the accepted costs less those taken back.
#[derive(Drop)]
pub struct Tables {
    pub systems: Vec<System>,
    pub couplings: Vec<Coupling>,
    pub contracts: Vec<Contract>,
    pub net: u64,
}
