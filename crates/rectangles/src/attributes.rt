// The attributes that DECCARA and DECRARA list, as one change of each.
ghost use Rattle.std.specs.Prelude.{◌≡◌, Bool, ℕ, Option, true, false};
ghost use Rattle.cells.specs.declared.Styling.{Styling};
ghost use Rattle.rectangles.specs.Attributes as attributes;

use cells::{Setting, Styling};
use parser::params::Params;

// Each attribute stays as it is.
const SAME: Styling = Styling {
    bold: Setting::Same,
    underline: Setting::Same,
    blink: Setting::Same,
    reverse: Setting::Same,
};

// ---- one value: none where it is not one of the function's

// DECCARA: the values of SGR.
#[tactic(auto, unfolding(crate::specs::Attributes::change_by))]
pub fn change_by(mut styling: Styling, value: u16) -> Option<Styling>
    ensures { result ≡ attributes.one_value false styling value }
{
    match value {
        0 => {
            styling = Styling {
                bold: Setting::Off,
                underline: Setting::Off,
                blink: Setting::Off,
                reverse: Setting::Off,
            };
        }
        1 => styling.bold = Setting::On,
        4 => styling.underline = Setting::On,
        5 => styling.blink = Setting::On,
        7 => styling.reverse = Setting::On,
        22 => styling.bold = Setting::Off,
        24 => styling.underline = Setting::Off,
        25 => styling.blink = Setting::Off,
        27 => styling.reverse = Setting::Off,
        _ => return None,
    }
    Some(styling)
}

// A setting, and then a flip.
fn flipped(setting: Setting) -> Setting
    ensures { result ≡ attributes.flipped setting }
{
    match setting {
        Setting::Same => Setting::Flipped,
        Setting::On => Setting::Off,
        Setting::Off => Setting::On,
        Setting::Flipped => Setting::Same,
    }
}

// DECRARA.
#[tactic(auto, unfolding(crate::specs::Attributes::reverse_by))]
pub fn reverse_by(mut styling: Styling, value: u16) -> Option<Styling>
    ensures { result ≡ attributes.one_value true styling value }
{
    match value {
        0 => {
            styling = Styling {
                bold: flipped(styling.bold),
                underline: flipped(styling.underline),
                blink: flipped(styling.blink),
                reverse: flipped(styling.reverse),
            };
        }
        1 => styling.bold = flipped(styling.bold),
        4 => styling.underline = flipped(styling.underline),
        5 => styling.blink = flipped(styling.blink),
        7 => styling.reverse = flipped(styling.reverse),
        _ => return None,
    }
    Some(styling)
}

// ---- a list of them

// The parameters from the fifth on; none is one 0.
fn attributes_of(params: &Params) -> &[u16]
    ensures { result.now ≡ attributes.attributes params.now }
{
    let values = &params.values[..params.count() as usize];
    if 4 < values.len() { &values[4..] } else { &[0] }
}

// What all of them make of a cell's attributes, in order, by the function of one value.
#[tactic(auto, unfolding(crate::specs::Attributes::restyling_of))]
fn restyled_by<F: Fn(Styling, u16) -> Option<Styling>>(params: Params, by: F) -> Option<Styling>
    ghost reversing: { Bool }
    requires callable { F.IsAlwaysCallable by }
    requires one { (s : Styling) (v : ℕ) (r : Option Styling) → F.post by s v r → r ≡ attributes.one_value reversing s v }
    ensures { result ≡ attributes.restyling_of reversing params }
{
    attributes_of(&params).iter().fold(
        None,
        |made, value| by(made.unwrap_or(SAME), *value).or(made),
    )
}

// DECRARA reverses, DECCARA changes.
pub fn restyling_of(reversing: bool, params: Params) -> Option<Styling>
    ensures { result ≡ attributes.restyling_of reversing params }
{
    if reversing {
        return restyled_by(params, reverse_by);
    }
    restyled_by(params, change_by)
}
