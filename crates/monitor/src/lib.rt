// The one-link question of a saved form, for a monitor in C.

#![tactic(auto)]

ghost use Rattle.std.specs.Prelude.{◌≡◌};
ghost use Rattle.monitor.specs.Question.{ring_link};

// The circuit on a link, on a wavelength in a direction, of the ring whose saved form is given; 4,294,967,296 where no circuit runs there;
// that plus the number of the refusal where the question is refused.
#[unsafe(no_mangle)]
pub extern "C" fn ring_link(form: &[u8], link: u64, wavelength: u64, direction: u64) -> u64
    ensures { result ≡ ring_link form.now link wavelength direction }
{
    let read = decode::read(form);
    let table = read.table;
    match read.verdict {
        Ok(()) => link_question::link_of(table, link, wavelength, direction),
        Err(refusal) => link_question::refused(refusal),
    }
}
