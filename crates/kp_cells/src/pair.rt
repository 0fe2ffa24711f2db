//! Parts that change together.
ghost use Rattle.std.specs.Prelude.{◌≡◌, None, IsSome, OnOk, OnErr};
ghost use Rattle.kp_layers.specs.Layering.{begun, abandoned};

use kp_layers::{GroupedLayers, Grouping, Layers};
use kp_model::NoMemory;

/// Opens a layer in both parts, or in none of them.
pub fn begin_both<V: Drop, W: Drop, S: Grouping<V>, T: Grouping<W>>(
    one: &mut GroupedLayers<V, S>,
    other: &mut GroupedLayers<W, T>,
) -> Result<(), NoMemory>
    requires one { one.old.staged ≡ None }
    requires other { other.old.staged ≡ None }
    ensures one { OnOk result (one.new ≡ begun one.old) }
    ensures other { OnOk result (other.new ≡ begun other.old) }
    ensures one_err { OnErr result (one.new ≡ one.old) }
    ensures other_err { OnErr result (other.new ≡ other.old) }
{
    one.begin()?;
    if other.begin().is_err() {
        one.abandon();
        return Err(NoMemory);
    }
    Ok(())
}

/// Takes the open layers of both parts away.
pub fn abandon_both<V: Drop, W: Drop, S: Grouping<V>, T: Grouping<W>>(
    one: &mut GroupedLayers<V, S>,
    other: &mut GroupedLayers<W, T>,
)
    requires one { IsSome one.old.staged }
    requires other { IsSome other.old.staged }
    ensures one { one.new ≡ abandoned one.old }
    ensures other { other.new ≡ abandoned other.old }
{
    one.abandon();
    other.abandon();
}

/// Opens a layer in all three parts, or in none of them.
pub fn begin_three<V: Drop, W: Drop, X: Drop, S: Grouping<V>, T: Grouping<W>>(
    one: &mut GroupedLayers<V, S>,
    other: &mut GroupedLayers<W, T>,
    third: &mut Layers<X>,
) -> Result<(), NoMemory>
    requires one { one.old.staged ≡ None }
    requires other { other.old.staged ≡ None }
    requires third { third.old.staged ≡ None }
    ensures one { OnOk result (one.new ≡ begun one.old) }
    ensures other { OnOk result (other.new ≡ begun other.old) }
    ensures third { OnOk result (third.new ≡ begun third.old) }
    ensures one_err { OnErr result (one.new ≡ one.old) }
    ensures other_err { OnErr result (other.new ≡ other.old) }
    ensures third_err { OnErr result (third.new ≡ third.old) }
{
    begin_both(one, other)?;
    if third.begin().is_err() {
        abandon_both(one, other);
        return Err(NoMemory);
    }
    Ok(())
}

/// Opens a layer in all four parts, or in none of them.
pub fn begin_four<V: Drop, W: Drop, X: Drop, Y: Drop>(
    one: &mut Layers<V>,
    other: &mut Layers<W>,
    third: &mut Layers<X>,
    fourth: &mut Layers<Y>,
) -> Result<(), NoMemory>
    requires one { one.old.staged ≡ None }
    requires other { other.old.staged ≡ None }
    requires third { third.old.staged ≡ None }
    requires fourth { fourth.old.staged ≡ None }
    ensures one { OnOk result (one.new ≡ begun one.old) }
    ensures other { OnOk result (other.new ≡ begun other.old) }
    ensures third { OnOk result (third.new ≡ begun third.old) }
    ensures fourth { OnOk result (fourth.new ≡ begun fourth.old) }
    ensures one_err { OnErr result (one.new ≡ one.old) }
    ensures other_err { OnErr result (other.new ≡ other.old) }
    ensures third_err { OnErr result (third.new ≡ third.old) }
    ensures fourth_err { OnErr result (fourth.new ≡ fourth.old) }
{
    begin_both(one, other)?;
    if begin_both(third, fourth).is_err() {
        abandon_both(one, other);
        return Err(NoMemory);
    }
    Ok(())
}
