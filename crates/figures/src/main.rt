// Prints outside numbers through the exported calls, to be compared with the stored output (Starred cases, "By program", K1, K5).
#![tactic(auto)]

ghost use Rattle.std.specs.Prelude.{◌≤◌, length};

use common::Refusal;
use profile::Profile;
use std::fmt::Display;
use std::io;

const NAMES: [&str; 10] = [
    "HEF33", "HMF33", "HKO03", "GHD33", "GMK33", "GKO33", "GBH33", "GBA33", "GGA33", "GMF33",
];

fn name(profile: u8) -> &'static str {
    NAMES.get(usize::from(profile)).copied().unwrap_or("")
}

fn refused(rt: &impl Print, refusal: Refusal) -> io::Result<()> {
    println!(rt; "refused {}", refusal.number())
}

// The end of a line: what a call gives, or its refusal.
fn answered<T: Display + Drop>(rt: &impl Print, answer: Result<T, Refusal>) -> io::Result<()> {
    match answer {
        Ok(given) => println!(rt; "{given}"),
        Err(refusal) => refused(rt, refusal),
    }
}

// The allocation temperature of document 000, today first: -2.0, 0.5, 3.4, 3.6 degrees.
fn temperature(rt: &impl Print) -> io::Result<()> {
    print!(rt; "temperature of -200, 50, 340, 360: ")?;
    let answer = weights::temperature(-200, 50, 340, 360);
    answered(rt, answer.map_err(|fault| fault.refusal))
}

// A profile's value at a temperature in hundredths, low and high, in units of 10^-9.
fn value(rt: &impl Print, profile: u8, t: i16) -> io::Result<()> {
    print!(rt; "{} at {t}: ", name(profile))?;
    match profile::value(profile, t) {
        Ok(values) => println!(rt; "{} to {}", values.low, values.high),
        Err(fault) => refused(rt, fault.refusal),
    }
}

// The ten profiles at 8.00 degrees; the one whose ratio is one at 7.00; and where the larger of the two lines changes
// (document 000, column Temp.-KP), with one hundredth above.
fn values(rt: &impl Print) -> io::Result<()> {
    for profile in 0..Profile::COUNT {
        value(rt, profile, 800)?;
    }
    value(rt, 7, 700)?;
    for (profile, t) in [(0, 1546), (3, 1472), (7, 869), (5, 1480)] {
        value(rt, profile, t)?;
        value(rt, profile, t + 1)?;
    }
    Ok(())
}

// Whether a value, in units of 10^-9, lies within 0.00001 of 1.
fn near(rt: &impl Print) -> io::Result<()> {
    let told = match profile::value(3, 800) {
        Ok(values) if 999_990_000 <= values.low && values.high <= 1_000_010_000 => "yes",
        _ => "no",
    };
    println!(rt; "GHD33 at 800 within 0.00001 of 1: {told}")
}

// The sum of a profile's weekday factors.
fn week(factors: &[u16]) -> u64
    requires { length factors.now ≤ 7 }
{
    factors.iter().map(|factor| u64::from(*factor)).sum()
}

// Each row of table 5 adds up to 70,000.
fn weeks(rt: &impl Print) -> io::Result<()> {
    for profile in 0..Profile::COUNT {
        print!(rt; "{} factors: ", name(profile))?;
        let sum = Profile::by_number(profile).map(|given| week(&given.factors));
        answered(rt, sum)?;
    }
    Ok(())
}

// The least and the greatest weight of all ten profiles, seven weekdays and 9,000 temperatures, none of which is refused.
fn whole_table() -> (u32, u32) {
    let mut least = u32::MAX;
    let mut most = 0;
    for profile in 0..Profile::COUNT {
        for t in Profile::COLDEST..=Profile::WARMEST {
            for weekday in 0..7 {
                if let Ok(weight) = profile::day_weight(profile, weekday, t) {
                    least = least.min(weight);
                    most = most.max(weight);
                }
            }
        }
    }
    (least, most)
}

fn table(rt: &impl Print) -> io::Result<()> {
    let (least, most) = whole_table();
    println!(rt; "weights over the whole table: {least} to {most}")
}

// The weights of three days, from six means of 10.00 degrees.
fn three_days(
    rt: &impl Print,
    label: &str,
    profile: u8,
    weekday: u8,
    calendar: &[u8],
) -> io::Result<()> {
    let means = [1000i16; 6];
    let mut out = [0u32; 3];
    match weights::weights(profile, weekday, &means, calendar, &mut out) {
        Ok(()) => println!(rt; "{label}: {} {} {}", out[0], out[1], out[2]),
        Err(fault) => refused(rt, fault.refusal),
    }
}

// The paper's example, from a Monday; and a bakery's days from a Thursday, first a working day, then a holiday.
fn spans(rt: &impl Print) -> io::Result<()> {
    let own = [7u8; 3];
    let holiday = [6u8, 7, 7];
    three_days(rt, "weights of the example", 0, 0, &own)?;
    three_days(rt, "GBA33 from a working Thursday", 7, 3, &own)?;
    three_days(rt, "GBA33 from a Thursday holiday", 7, 3, &holiday)
}

// The customer value over sixty weights that add up to z.
fn customer_value(rt: &impl Print, energy: u64, z: u32) -> io::Result<()> {
    let each = z / 60;
    let mut weights = [each; 60];
    weights[0] = each + z % 60;
    print!(rt; "customer value of {energy} Wh over {z}: ")?;
    answered(rt, customer::customer_value(energy, &weights))
}

fn daily_amount(rt: &impl Print, value: u64, weight: u32) -> io::Result<()> {
    print!(rt; "daily amount of {value} with weight {weight}: ")?;
    answered(rt, customer::daily_amount(value, weight))
}

// The examples of document 000 (tables 18 to 23, and the daily amounts of two customers beside them), and the largest customer value.
fn customers(rt: &impl Print) -> io::Result<()> {
    customer_value(rt, 23_185_000, 329_581_001)?;
    customer_value(rt, 958_000, 379_356_309)?;
    customer_value(rt, 223_185_000, 397_727_400)?;
    customer_value(rt, 2_000_000_000, 20_000)?;
    customer_value(rt, 2_000_000_000, 19_999)?;
    daily_amount(rt, 500_000, 2_016_134)?;
    daily_amount(rt, 4_000_000, 2_360_152)
}

// The Wh of two days, by two readings with a cut between them.
fn two_days(weights: &[u32; 2]) -> Result<[u64; 2], Refusal> {
    let mut marks = [0u8; 3];
    let mut counts = [0u64; 3];
    account::open(weights, &mut marks, &mut counts)?;
    account::reading(weights, &mut marks, &mut counts, 0, 0)?;
    account::cut(weights, &mut marks, &counts, 1)?;
    account::reading(weights, &mut marks, &mut counts, 2, 25_424_000)?;
    let mut from = [0u16; 2];
    let mut to = [0u16; 2];
    let mut wh = [0u64; 2];
    statement::statement(weights, &marks, &counts, &mut from, &mut to, &mut wh)?;
    Ok(wh)
}

// The example of document 002.
fn split(rt: &impl Print) -> io::Result<()> {
    print!(rt; "split of 25424000 Wh: ")?;
    match two_days(&[9_870, 21_478]) {
        Ok(wh) => println!(rt; "{} {}", wh[0], wh[1]),
        Err(refusal) => refused(rt, refusal),
    }
}

// Some numbers on a line.
fn each(rt: &impl Print, label: &str, numbers: &[u64]) -> io::Result<()> {
    print!(rt; "{label}:")?;
    for number in numbers {
        print!(rt; " {number}")?;
    }
    println!(rt)
}

// The twenty points of document 000 (tables 1 and 10): bases in tenths of a Wh, suppliers A and B as 0 and 1, a load of 2,250,000 Wh.
fn points(rt: &impl Print) -> io::Result<()> {
    let suppliers = [0u8, 0, 0, 1, 1, 1, 1, 1, 1, 1, 1, 1, 0, 0, 0, 0, 0, 0, 1, 1];
    let bases = [
        573_261u64, 617_358, 749_650, 705_552, 602_659, 661_455, 823_145, 720_251, 690_853,
        779_048, 764_349, 661_455, 1_511_730, 1_682_869, 1_540_253, 2_067_932, 1_725_654,
        1_411_898, 1_212_236, 1_369_114,
    ];
    let mut amounts = [0u64; 20];
    let mut totals = [0u64; 64];
    let answer = residual::spread(2_250_000, &suppliers, &bases, &mut amounts, &mut totals);
    each(rt, "residual load, points", &amounts)?;
    each(rt, "residual load, suppliers", &totals[..2])?;
    print!(rt; "residual load, network: ")?;
    answered(rt, answer)
}

fn main(rt: HostRuntime) -> io::Result<()> {
    temperature(&rt)?;
    values(&rt)?;
    near(&rt)?;
    weeks(&rt)?;
    table(&rt)?;
    spans(&rt)?;
    customers(&rt)?;
    split(&rt)?;
    points(&rt)
}
