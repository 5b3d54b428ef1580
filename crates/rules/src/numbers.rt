// Whether live numbers are distinct.

ghost use Rattle.std.specs.Prelude.{◌≡◌, length, map, ◌≤◌, take};
ghost use Rattle.basis.specs.Count.{distinct};
ghost use Rattle.limits.specs.Limits.{circuit_room};

use lightpath::Circuit;
use limits::CIRCUIT_ROOM;

// The numbers of circuits side by side, so that several are compared at once.
fn numbers_of(circuits: &[Circuit]) -> [u32; CIRCUIT_ROOM]
    requires { length circuits.now ≤ circuit_room }
    ensures { take (length circuits.now) result ≡ map (λ c. c.number) circuits.now }
{
    let mut numbers = [0u32; CIRCUIT_ROOM];
    for (i, circuit) in circuits.iter().enumerate() {
        numbers[i] = circuit.number;
    }
    numbers
}

// Whether no two numbers are alike: each is compared with all after it.
fn all_distinct(numbers: &[u32]) -> bool
    requires { length numbers.now ≤ circuit_room }
    ensures { result ≡ distinct (λ n. n) numbers.now }
{
    for (i, number) in numbers.iter().enumerate() {
        let mut alike: u32 = 0;
        for other in &numbers[i + 1..] {
            alike += u32::from(other == number);
        }
        if 0 < alike {
            return false;
        }
    }
    true
}

// Whether no two circuits have one number.
pub fn numbers_distinct(circuits: &[Circuit]) -> bool
    requires { length circuits.now ≤ circuit_room }
    ensures { result ≡ distinct (λ c. c.number) circuits.now }
{
    let numbers = numbers_of(circuits);
    all_distinct(&numbers[..circuits.len()])
}
