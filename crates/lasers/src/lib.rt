// What is printed of lasers: the frequency at which a wavelength of a plan stands, and the wavelength at a frequency.

#![tactic(auto)]

ghost use Rattle.std.specs.Prelude.{◌+◌, ◌≤◌, length};
ghost use Rattle.buffer.specs.Put.{Printed};
ghost use Rattle.grid.specs.Tuning.{tuned_of, carried_of};
ghost use Rattle.lasers.specs.Lines.{frequency_line, frequency_room, wavelength_line, wavelength_room};

use grid::{Carried, Frequency, GridPlan, Tuned};

// `frequency F`, or `frequency refused R`.
fn put_frequency(out: &mut [u8], at: usize, tuned: Tuned) -> usize
    requires { at + frequency_room ≤ length out.old }
    ensures { Printed frequency_room out.old at (frequency_line tuned) out.new result }
{
    match tuned {
        Ok(frequency) => { print::put_filled(out, at, b"frequency #\n", frequency.0, 0, 0, 0) }
        Err(refusal) => { print::put_refusal(out, at, b"frequency refused #\n", refusal) }
    }
}

// `wavelength W`, or `wavelength refused R`.
fn put_wavelength(out: &mut [u8], at: usize, carried: Carried) -> usize
    requires { at + wavelength_room ≤ length out.old }
    ensures { Printed wavelength_room out.old at (wavelength_line carried) out.new result }
{
    match carried {
        Ok(wavelength) => {
            print::put_filled(out, at, b"wavelength #\n", wavelength.0 as u32, 0, 0, 0)
        }
        Err(refusal) => { print::put_refusal(out, at, b"wavelength refused #\n", refusal) }
    }
}

// Answers `frequency SPACING START WAVELENGTH`.
pub fn answer_frequency(plan: GridPlan, wavelength: u32, out: &mut [u8], at: usize) -> usize
    requires { at + frequency_room ≤ length out.old }
    ensures { Printed frequency_room out.old at (frequency_line (tuned_of plan wavelength)) out.new result }
{
    let tuned = plan.frequency_numbered(wavelength);
    put_frequency(out, at, tuned)
}

// Answers `wavelength SPACING START FREQUENCY`.
pub fn answer_wavelength(plan: GridPlan, frequency: u32, out: &mut [u8], at: usize) -> usize
    requires { at + wavelength_room ≤ length out.old }
    ensures { Printed wavelength_room out.old at (wavelength_line (carried_of plan frequency)) out.new result }
{
    let carried = plan.wavelength(Frequency(frequency));
    put_wavelength(out, at, carried)
}
