// A request in words.
use rows::Request;
use std::fmt;

#[derive(Clone, Copy)]
pub struct Words(pub Request);

// The short name of a voltage level. It is a number here, since a row may ask for a level that is none.
fn level_name(level: u64) -> &'static str {
    match level {
        1 => "EHS",
        2 => "HS",
        3 => "TS",
        4 => "transformer HS+TS/MS",
        5 => "MS",
        6 => "transformer MS/LS",
        7 => "LS",
        _ => "no such level",
    }
}

// A day of the year, which a row gives as the month times 100 plus the day.
#[derive(Clone, Copy)]
struct Date(u64);

// Written out, as the words below are.
impl fmt::Display for Date {
    fn fmt<W: fmt::Write>(&self, f: &mut fmt::Formatter<W>) -> fmt::Result {
        let month = self.0 / 100;
        let day = self.0 % 100;
        write!(f, "day {day} of month {month}")
    }
}

// Written out, since no derive puts level names and dates into a sentence.
impl fmt::Display for Words {
    fn fmt<W: fmt::Write>(&self, f: &mut fmt::Formatter<W>) -> fmt::Result {
        match self.0 {
            Request::CalendarYear { year } => write!(f, "calendar year {year}"),
            Request::Open { level, category } => {
                let name = level_name(level);
                write!(
                    f,
                    "open a system at level {level} ({name}), category {category}"
                )
            }
            Request::Couple {
                upper,
                lower,
                kw,
                mwh,
            } => {
                write!(
                    f,
                    "couple system {upper} to system {lower} below it, {kw} kW and {mwh} MWh exchanged"
                )
            }
            Request::Use {
                system,
                kw,
                mwh,
                permille,
            } => {
                write!(
                    f,
                    "system {system} has consumers of {kw} kW and {mwh} MWh, {permille} permille go by kW"
                )
            }
            Request::Cost { system, euros } => write!(
                f,
                "add costs of {euros} euros at system {system}"
            ),
            Request::TakeBack { system, euros } => write!(
                f,
                "take back {euros} euros of costs at system {system}"
            ),
            Request::Pass { system } => write!(f, "pass on the euros at system {system}"),
            Request::Settle => write!(f, "settle all systems"),
            Request::Fix {
                system,
                contracted,
                kwmax,
                kwh,
                reckoned,
            } => {
                write!(
                    f,
                    "fix the tariffs of system {system}, volumes {contracted} contracted kW, {kwmax} kWmax, {kwh} kWh, {reckoned} reckoned kW"
                )
            }
            Request::Contract {
                system,
                kw,
                fee,
                first,
                last,
                reading,
            } => {
                let from = Date(first);
                let to = Date(last);
                write!(
                    f,
                    "contract at system {system} for {kw} kW, fee {fee} cents a year, from {from} to {to}, reading {reading} kWh"
                )
            }
            Request::Start {
                contract,
                kwmax,
                reading,
            } => {
                write!(
                    f,
                    "start the next bill of contract {contract}, kWmax {kwmax}, reading {reading} kWh, and issue it"
                )
            }
        }
    }
}
