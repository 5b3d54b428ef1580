// The circuits of one place counted by what a request asks for: by number, by the node that sends, by the node that receives.

#![tactic(auto)]

ghost use Rattle.std.specs.Prelude.{Bool, ◌≡◌, ◌≤◌};
ghost use Rattle.basis.specs.Choice.{bit};
ghost use Rattle.basis.specs.Count.{weigh};
ghost use Rattle.lightpath.specs.declared.Circuit.{Circuit};
ghost use Rattle.slots.specs.Slot.{held};
ghost use Rattle.channels.specs.Channels.{numbered};
ghost use Rattle.ports_used.specs.PortsUsed.{sends, receives};

use lightpath::Circuit;
use slots::Slot;

// How many circuits of a place pass a test.
fn count_at<F: Fn(Circuit) -> bool>(slot: Slot, passes: F) -> usize
    requires { F.IsAlwaysCallable passes }
    ensures counted { (f : Circuit → Bool) → ((c : Circuit) (b : Bool) → F.post passes c b → b ≡ f c) → result ≡ weigh (λ c. bit (f c)) (held slot) }
    ensures most { result ≤ 2 }
{
    match slot {
        Slot::Unlit => 0,
        Slot::Alone(a) => usize::from(passes(a)),
        Slot::Shared(a, b) => usize::from(passes(a)) + usize::from(passes(b)),
    }
}

// How many circuits of a place have a number.
pub fn numbered_at(slot: Slot, number: u32) -> usize
    ensures { (result ≡ numbered number (held slot)) × (result ≤ 2) }
{
    count_at(slot, |circuit| circuit.number == number)
}

// How many circuits of a place a node sends.
pub fn sent_at(slot: Slot, node: u8) -> usize
    ensures { (result ≡ sends node (held slot)) × (result ≤ 2) }
{
    count_at(slot, |circuit| circuit.source == node)
}

// How many circuits of a place a node receives.
pub fn received_at(slot: Slot, node: u8) -> usize
    ensures { (result ≡ receives node (held slot)) × (result ≤ 2) }
{
    count_at(slot, |circuit| circuit.destination == node)
}
