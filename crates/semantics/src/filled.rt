// The systems of all rule sets of a model, by masks and tables that are filled once from its text and lent to one closure. The room for the masks lies
// here, in three sizes: small models would spend most of their time clearing the largest.
ghost use Rattle.std.specs.Prelude.{◌≡◌, ◌+◌, ◌*◌, ◌^◌, ◌≤◌};
ghost use Rattle.systems.specs.declared.systems.Systems.{Systems};
ghost use Rattle.semantics.specs.TablesOf.{Filled};
ghost use Rattle.semantics.specs.Lent.{TakesSystems, AnswersBySystems};

use crate::model_text::ModelText;
use systems::systems::Systems;

// What the closure makes of them and of the lent bytes, with room for so many masks. That there is room is asked here, of `fill` and of `fill_masks`, and is no
// ghost field of what is lent: behind a `&mut` a slice could be exchanged for another.
fn with_room<const MASKS: usize, R, F: FnOnce(Systems, &mut [u8]) -> R>(
    m: ModelText,
    lent: &mut [u8],
    run: F,
) -> R
    requires room { (128 * (2 ^ m.model.vars + 1) ≤ MASKS) × (MASKS ≤ 16512) }
    requires callable { TakesSystems (F.pre run) m lent.old }
    ensures { AnswersBySystems (F.post run) m.entry lent.old result lent.new }
{
    let mut masks = [0u16; MASKS];
    let tables = crate::tables::fill(m, &mut masks[..]);
    run(
        Systems {
            masks: &masks[..],
            tables: &tables,
        },
        lent,
    )
}

// What the closure makes of them and of the lent bytes. Both are filled once. The bytes are lent to the closure as an argument, since of what it has written
// to a slice that it holds nothing would be known here.
pub fn with_systems_over<R, F: FnOnce(Systems, &mut [u8]) -> R>(
    m: ModelText,
    lent: &mut [u8],
    run: F,
) -> R
    requires callable { TakesSystems (F.pre run) m lent.old }
    ensures { AnswersBySystems (F.post run) m.entry lent.old result lent.new }
{
    if m.model.vars <= 2 {
        with_room::<640, _, _>(m, lent, run)
    } else if m.model.vars <= 4 {
        with_room::<2176, _, _>(m, lent, run)
    } else {
        with_room::<16512, _, _>(m, lent, run)
    }
}

// What the closure makes of them.
pub fn with_systems<R, F: FnOnce(Systems) -> R>(m: ModelText, run: F) -> R
    requires callable { (s : Systems) → Filled m s → F.pre run s }
    ensures { (s : Systems) × Filled m.entry s × F.post run s result }
{
    with_systems_over(
        m,
        &mut [],
        |systems: Systems, _: &mut [u8]| -> R
            requires { F.pre run systems }
            ensures { F.post run systems.entry result }
        { run(systems) },
    )
}
