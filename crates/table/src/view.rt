// Tables that were checked: the type says what holds of the bytes, from the taking up on.
ghost use Rattle.fault.specs.First.{Below};
ghost use Rattle.fault.specs.Judged.{Everywhere};
ghost use Rattle.table.specs.Form.{all_steps};
ghost use Rattle.table.specs.Rules.{Sized, Formed, Ended, pair_rule, normal_rule};

// A transition table.
#[derive(Clone, Copy)]
pub struct Table<'a> {
    pub(crate) bytes: &'a [u8],
    ghost sized: { Sized bytes.now },
    ghost pairs: { Everywhere (pair_rule bytes.now) },
    ghost formed: { Below (Formed bytes.now) (all_steps bytes.now) },
    ghost ended: { Below (Ended bytes.now) (all_steps bytes.now) },
}

// A transition table in which no state has a tau or an event twice.
#[derive(Clone, Copy)]
pub struct NormalTable<'a> {
    pub(crate) table: Table<'a>,
    ghost normal: { ∥ Everywhere (normal_rule table.bytes.now) ∥₁ },
}
