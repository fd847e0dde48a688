// What holds of the text of images.

ghost use Rattle.std.specs.Prelude.{◌≡◌, ◌⊎◌, ℕ, List};
ghost use Rattle.br_image.specs.declared.images.Image.{Image};
ghost use Rattle.br_image.specs.declared.faults.ImageFault.{ImageFault};
ghost use Rattle.br_image.specs.Printed.{image_text};
ghost use Rattle.br_image.specs.Faults.{IsFault};

/// An image has one text, and two images have two.
#[tactic(auto, using(crate::proofs::Sequences::same_text_same_image))]
pub fn two_images_have_two_texts()
    ensures { (i j : Image) → image_text i ≡ image_text j → i ≡ j }
{}

/// Each text is the text of an image or has a fault, and never both, and never two faults.
#[tactic(auto, using(crate::proofs::Verdict::not_both, crate::proofs::Verdict::one_fault))]
pub fn one_image_or_one_fault()
    ensures either { (text : List ℕ) →
        ((i : Image) × (text ≡ image_text i)) ⊎ ((f : ImageFault) × IsFault text f) }
    ensures not_both { (text : List ℕ) (i : Image) (f : ImageFault) → text ≡ image_text i →
        IsFault text f → ⊥ }
    ensures one_fault { (text : List ℕ) (f g : ImageFault) → IsFault text f →
        IsFault text g → f ≡ g }
{}
