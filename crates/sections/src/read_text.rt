// A text that was read.
ghost use Rattle.calls.specs.AsRead.{IsRead};

use semantics::model_text::ModelText;

// An accepted text, with its model.
#[derive(Clone, Copy)]
pub struct ReadText<'a> {
    pub m: ModelText<'a>,
    ghost is_read: { IsRead m.text.now m.model },
}
