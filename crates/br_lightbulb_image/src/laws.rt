// What follows from the contracts of the firmware and of the compiler. The
// function does nothing: its contract is a law.

ghost use Rattle.std.specs.Prelude.{ℕ, List};
ghost use Rattle.br_syntax.specs.declared.program.Func.{Func};
ghost use Rattle.br_image.specs.declared.images.Image.{Image};
ghost use Rattle.br_compile.specs.Refusal.{Accepts};
ghost use Rattle.br_compile.specs.Implements.{Implements};
ghost use Rattle.br_lightbulb_image.specs.Images.{IsFirmwareText, ImageStaysGood};

use br_compile::first_steps_show_a_run;
use br_lightbulb::{firmware_stays_good, text_stands_for_trees};
use br_sexpr::one_answer;
use br_syntax::one_meaning;

/// Each image that the compiler may answer for a text that stands for the firmware: it has an entry
/// `main` without arguments, and from there, with any memory, whatever the devices answer and
/// whatever registers and memory are left with, no step traps, and after any number of steps a
/// member of the trace language begins with the events.
pub fn firmware_images_stay_good()
    ensures { (text : List ℕ) (fs : List Func) (image : Image) →
        Accepts text fs → Implements image fs → IsFirmwareText text → ImageStaysGood image }
{
    one_answer();
    one_meaning();
    text_stands_for_trees();
    firmware_stays_good();
    first_steps_show_a_run();
}
