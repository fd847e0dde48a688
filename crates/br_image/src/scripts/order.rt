// Which lines may stand after which.

ghost use Rattle.std.specs.Prelude.{◌≡◌, List, IfSome, IfNone};
ghost use Rattle.br_image.specs.declared.scripts.order.Part.{Part};
ghost use Rattle.br_image.specs.ScriptReading.{Leaves};

use crate::scripts::lines::Form;

/// A part of a script: a line of a form, or any number of lines of it.
#[derive(Clone, Copy, Debug, PartialEq, Eq)]
pub enum Part {
    One(Form),
    Many(Form),
}

/// The parts of a run script, in order.
pub(crate) const RUN: [Part; 8] = [
    Part::One(Form::Run),
    Part::One(Form::Call),
    Part::One(Form::Args),
    Part::Many(Form::Mem),
    Part::One(Form::Junk),
    Part::Many(Form::Answer),
    Part::One(Form::Limit),
    Part::One(Form::End),
];

/// The parts of an interp script, in order.
pub(crate) const INTERP: [Part; 8] = [
    Part::One(Form::Interp),
    Part::One(Form::Call),
    Part::One(Form::Args),
    Part::Many(Form::Mem),
    Part::Many(Form::Choose),
    Part::Many(Form::Answer),
    Part::One(Form::Limit),
    Part::One(Form::End),
];

/// The parts that may come after a line of this form. None where it may not stand before these.
pub(crate) fn parts_after(parts: &[Part], form: Form) -> Option<&[Part]>
    ensures some { IfSome result (λ left. Leaves parts.now form left.now) }
    ensures none { IfNone result ((left : List Part) → ¬ Leaves parts.now form left) }
{
    match parts {
        [] => None,
        [Part::One(own), rest @ ..] => { if *own == form { Some(rest) } else { None } }
        [Part::Many(own), rest @ ..] => {
            if *own == form {
                Some(parts)
            } else {
                parts_after(rest, form)
            }
        }
    }
}
