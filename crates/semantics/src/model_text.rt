// A model text that was read, with its model.
ghost use Rattle.semantics.specs.Few.{Few};

use models::model::Model;

// A text and where the parts of its model stand in it, which is no larger than the arrays: so every answer about the model comes of one value.
#[derive(Clone, Copy)]
pub struct ModelText<'a> {
    pub text: &'a [u8],
    pub model: Model,
    ghost few: { Few model },
}
