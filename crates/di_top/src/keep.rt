//! Which of the probes that are handed in is kept, and its numbers.
ghost use Rattle.std.specs.Prelude.{◌≡◌, ◌<◌, length, slice_get, IfSome, IsNone, None};
ghost use Rattle.replay.specs.Probes.{view_of, views_of, number};
ghost use Rattle.di_top.specs.Requests.{first_of};
ghost use Rattle.di_top.specs.Asked.{kept_by, is_found};
ghost use Rattle.di_top.specs.RunForm.{kept_text, view_text};
ghost use Rattle.di_top.specs.Plans.{figures_text};

use crate::run_form::Figures;
use replay::Probe;

/// The rule of probes that count gives, passes and fires.
pub const COUNT_RULE: u32 = 1;

/// The rule of probes that tell how many wires were busy at once.
pub const PEAK_RULE: u32 = 2;

/// Keeps the first probe with the wanted rule, if one is wanted, and drops all others. False where none has it.
pub fn keep<P: Probe>(probes: &mut Vec<P>, wanted: Option<u32>) -> bool
    ensures views { views_of P.rule P.numbers P.steady probes.new.items
        ≡ kept_by wanted (views_of P.rule P.numbers P.steady probes.old.items) }
    ensures found { result ≡ is_found wanted (views_of P.rule P.numbers P.steady probes.old.items) }
{
    let Some(rule) = wanted else {
        probes.clear();
        return true;
    };
    let Some(place) = place_of(rule, probes.as_slice()) else {
        probes.clear();
        return false;
    };
    probes.swap(0, place);
    probes.truncate(1);
    true
}

/// The place of the first probe with the rule.
fn place_of<P: Probe>(rule: u32, probes: &[P]) -> Option<usize>
    ensures within { IfSome result (λ place. place < length probes.now) }
    ensures first { IfSome result (λ place. first_of rule (views_of P.rule P.numbers P.steady probes.now)
        ≡ slice_get (views_of P.rule P.numbers P.steady probes.now) place) }
    ensures none { IsNone result → first_of rule (views_of P.rule P.numbers P.steady probes.now) ≡ None }
{
    for index in 0..probes.len() {
        if probes[index].rule() == rule {
            return Some(index);
        }
    }
    None
}

/// The numbers of the first probe by their names, if its rule has names for them.
pub fn figures_of<P: Probe>(probes: &[P]) -> Option<Figures>
    ensures { figures_text result ≡ kept_text (views_of P.rule P.numbers P.steady probes.now) }
{
    match probes {
        [] => None,
        [probe, ..] => figures_in(probe),
    }
}

fn figures_in<P: Probe>(probe: &P) -> Option<Figures>
    ensures { figures_text result ≡ view_text (view_of P.rule P.numbers P.steady probe.now) }
{
    match probe.rule() {
        COUNT_RULE => Some(Figures::Count {
            gives: number_of(probe, 0),
            passes: number_of(probe, 1),
            fires: number_of(probe, 2),
        }),
        PEAK_RULE => Some(Figures::Peak {
            busy: number_of(probe, 0),
            peak: number_of(probe, 1),
        }),
        _ => None,
    }
}

fn number_of<P: Probe>(probe: &P, index: u32) -> u64
    ensures { result ≡ number (P.numbers probe.now) index }
{
    match probe.line(index) {
        Some(number) => number,
        None => 0,
    }
}
