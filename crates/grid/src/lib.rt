// The frequency grid of ITU-T G.694.1, by which lasers are ordered: at which frequency a wavelength stands, and which wavelength stands at
// a frequency. Frequencies and spacings are whole counts of 100 MHz.

#![tactic(auto)]

ghost use Rattle.std.specs.Prelude.{◌≡◌, true, ◌<◌, pos, ◌-ℤ◌};
ghost use Rattle.std.specs.Int.Signed.{quot_z};
ghost use Rattle.refusals.specs.Refusal.{judged};
ghost use Rattle.refusals.specs.Answer.{answer_by};
ghost use Rattle.grid.specs.Grid.{is_spacing, is_start, anchor, grid_point, is_plan};
ghost use Rattle.grid.specs.Tuning.{plan_causes, tuned_of, tuned_answer, tuned_reasons, tuned_values, carried_of, carried_answer, carried_reasons, carried_values};
ghost use Rattle.grid.specs.Number.{OnGrid, is_whole};

use lightpath::Wavelength;
use refusals::{Refusal, Verdict};

// A frequency in counts of 100 MHz.
#[derive(Clone, Copy, Debug, PartialEq, Eq)]
pub struct Frequency(pub u32);

// A plan of the grid: its spacing in counts of 100 MHz, and the grid number of wavelength 0.
#[derive(Clone, Copy, Debug, PartialEq, Eq)]
pub struct GridPlan {
    pub spacing: u32,
    pub start: i32,
}

// At which frequency a wavelength stands.
pub type Tuned = Result<Frequency, Refusal>;

// Which wavelength stands at a frequency.
pub type Carried = Result<Wavelength, Refusal>;

// The frequency at grid number 0, 193.1 THz.
const ANCHOR: i32 = 1931000;

// The lowest and the highest grid number at which a plan starts.
const LOWEST_START: i32 = -200;

const HIGHEST_START: i32 = 200;

// The highest wavelength of a plan.
const HIGHEST_WAVELENGTH: u32 = 63;

// Whether the spacing is one of the grid's: 12.5, 25, 50 or 100 GHz.
fn is_spacing(spacing: u32) -> bool
    ensures { result ≡ is_spacing spacing }
{
    matches!(spacing, 125 | 250 | 500 | 1000)
}

// Whether a plan may start at the grid number.
fn is_start(number: i32) -> bool
    ensures { result ≡ is_start number }
{
    LOWEST_START <= number && number <= HIGHEST_START
}

// The frequency at a grid number: so many spacings from 193.1 THz.
fn grid_point(spacing: u32, number: i32) -> u32
    requires { OnGrid spacing number }
    ensures { pos result ≡ grid_point spacing number }
{
    (ANCHOR + number * spacing as i32) as u32
}

// How far a frequency lies from 193.1 THz, below zero where it is the lower.
fn from_anchor(frequency: u32) -> i64
    ensures { result ≡ pos frequency -ℤ pos anchor }
{
    frequency as i64 - ANCHOR as i64
}

// Whether a difference of frequencies is a whole number of spacings.
fn is_whole(difference: i64, spacing: u32) -> bool
    requires { 0 < spacing }
    ensures { result ≡ is_whole difference spacing }
{
    difference % spacing as i64 == 0
}

// How many spacings a difference of frequencies is, rounded towards zero.
fn spacings(difference: i64, spacing: u32) -> i64
    requires { 0 < spacing }
    ensures { result ≡ quot_z difference (pos spacing) }
{
    difference / spacing as i64
}

impl GridPlan {
    // Why the plan is refused, if it is.
    fn judge(self) -> Verdict
        ensures { result ≡ judged (plan_causes self) }
    {
        if !is_spacing(self.spacing) {
            return Err(Refusal::NoSpacing);
        }
        if !is_start(self.start) {
            return Err(Refusal::NoStart);
        }
        Ok(())
    }

    // The frequency of a wavelength, of a plan of the grid.
    fn tuned(self, number: u32) -> Tuned
        requires { is_plan self ≡ true }
        ensures { result ≡ tuned_of self number }
    {
        if HIGHEST_WAVELENGTH < number {
            return Err(Refusal::NoWavelength);
        }
        let grid_number = self.start + number as i32;
        Ok(Frequency(grid_point(self.spacing, grid_number)))
    }

    // The frequency at which a wavelength of the plan stands, by a number as somebody wrote it, judged with all its bits.
    pub fn frequency_numbered(self, number: u32) -> Tuned
        ensures answer { result ≡ tuned_of self number }
        ensures numbers { tuned_answer result ≡ answer_by (tuned_reasons self number) (tuned_values self number) }
    {
        self.judge()?;
        self.tuned(number)
    }

    // The frequency at which a wavelength of the plan stands.
    pub fn frequency(self, wavelength: Wavelength) -> Tuned
        ensures answer { result ≡ tuned_of self wavelength.0 }
        ensures numbers { tuned_answer result ≡ answer_by (tuned_reasons self wavelength.0) (tuned_values self wavelength.0) }
    {
        self.frequency_numbered(wavelength.0 as u32)
    }

    // The wavelength at a frequency, of a plan of the grid.
    fn carried(self, frequency: u32) -> Carried
        requires { is_plan self ≡ true }
        ensures { result ≡ carried_of self frequency }
    {
        let difference = from_anchor(frequency);
        // Asked first, since a division rounds towards zero: a frequency just below a start of −3 would be wavelength 0.
        if !is_whole(difference, self.spacing) {
            return Err(Refusal::OffPlan);
        }
        let wavelength = spacings(difference, self.spacing) - self.start as i64;
        if wavelength < 0 {
            return Err(Refusal::OffPlan);
        }
        if (HIGHEST_WAVELENGTH as i64) < wavelength {
            return Err(Refusal::OffPlan);
        }
        Ok(Wavelength(wavelength as u8))
    }

    // The wavelength of the plan that stands at a frequency.
    pub fn wavelength(self, frequency: Frequency) -> Carried
        ensures answer { result ≡ carried_of self frequency.0 }
        ensures numbers { carried_answer result ≡ answer_by (carried_reasons self frequency.0) (carried_values self frequency.0) }
    {
        self.judge()?;
        self.carried(frequency.0)
    }
}
