//! The deadlines as a tree, in which the least one below each node is known.
ghost use Rattle.std.specs.Prelude.{◌≡◌, ◌≢◌, ℕ, ◌+◌, ◌-◌, ◌*◌, ◌<◌, ◌≤◌, ◌++◌, ◌∷◌, [], length, take, map, slice_set, false, Option, None, Some};
ghost use Rattle.std.specs.Option.{option_copied, option_map};
ghost use Rattle.std.specs.List.{slice_get};
ghost use Rattle.std.specs.Vec.{vec_len, vec_capacity};
ghost use Rattle.kp_expiry.specs.Nodes.{tag, tags, leasts, earlier, least_of, IsRight, AreRight, AreRightBut, AreRightAbove};
ghost use Rattle.kp_expiry.specs.Index.{taken_out, mover};

/// One session in the tree. The slots stand in one vector, and the children of the node `i` are the
/// nodes `2 * i + 1` and `2 * i + 2`, where there are so many.
#[derive(Clone, Copy)]
pub(crate) struct Slot {
    /// The session.
    pub(crate) session: u64,
    /// Its deadline, in milliseconds.
    pub(crate) deadline: u128,
    /// The least deadline of this node and all nodes below it.
    pub(crate) least: u128,
}

// The earlier of the deadline and the least one of the child, if there is a child.
fn earlier(deadline: u128, child: Option<&Slot>) -> u128
    ensures { result ≡ earlier deadline (option_map (λ (s : Slot). s.least) (option_copied child.entry)) }
{
    match child {
        Some(slot) => deadline.min(slot.least),
        None => deadline,
    }
}

// The least deadline of the node and all below it, where those of its children are right.
fn least_below(slots: &[Slot], node: usize) -> u128
    requires { node < length slots.now }
    ensures { (t : ℕ × ℕ) → slice_get (tags slots.now) node ≡ Some t → result ≡ least_of (leasts slots.now) node t.0 }
{
    let own = slots[node].deadline;
    let left = earlier(own, slots.get(2 * node + 1));
    earlier(left, slots.get(2 * node + 2))
}

// Makes the least deadline at the node right, where those of its children are. Answers whether it
// was another before.
fn renew(slots: &mut [Slot], node: usize) -> bool
    requires { node < length slots.old }
    ensures tags { tags slots.new ≡ tags slots.old }
    ensures here { IsRight slots.new node }
    ensures others { (j : ℕ) → j ≢ node → 2 * j + 1 ≢ node → 2 * j + 2 ≢ node → IsRight slots.old j → IsRight slots.new j }
    ensures same { result ≡ false → slots.new ≡ slots.old }
{
    let least = least_below(slots, node);
    if slots[node].least == least {
        return false;
    }
    slots[node].least = least;
    true
}

// Makes the least deadlines right from the node's parent up to the root. The others are right.
fn mend_above(slots: &mut [Slot], node: usize)
    requires inside { node ≤ length slots.old }
    requires right { AreRightAbove slots.old node }
    ensures tags { tags slots.new ≡ tags slots.old }
    ensures right { AreRight slots.new }
{
    let mut child = node;
    while 0 < child {
        let parent = (child - 1) / 2;
        if !renew(slots, parent) {
            break;
        }
        child = parent;
    }
}

// Makes the least deadlines right from the node up to the root. The others are right.
fn mend(slots: &mut [Slot], node: usize)
    requires inside { node < length slots.old }
    requires right { AreRightBut slots.old node }
    ensures tags { tags slots.new ≡ tags slots.old }
    ensures right { AreRight slots.new }
{
    if renew(slots, node) {
        mend_above(slots, node);
    }
}

/// Makes the least deadlines right at each node, from the last one up.
pub(crate) fn mend_all(slots: &mut [Slot])
    ensures tags { tags slots.new ≡ tags slots.old }
    ensures right { AreRight slots.new }
{
    let mut node = slots.len();
    while 0 < node {
        node -= 1;
        renew(slots, node);
    }
}

/// Puts the session with its deadline in the place of what stands at the node.
pub(crate) fn put(slots: &mut [Slot], node: usize, session: u64, deadline: u128)
    requires inside { node < length slots.old }
    requires right { AreRight slots.old }
    ensures tags { tags slots.new ≡ slice_set (tags slots.old) node (deadline, session) }
    ensures right { AreRight slots.new }
{
    let slot = &mut slots[node];
    slot.session = session;
    slot.deadline = deadline;
    mend(slots, node);
}

/// Adds the session with its deadline as the last node.
pub(crate) fn add(slots: &mut Vec<Slot>, session: u64, deadline: u128)
    requires room { vec_len slots.old < vec_capacity slots.old }
    requires right { AreRight slots.old.items }
    ensures tags { tags slots.new.items ≡ tags slots.old.items ++ (deadline, session) ∷ [] }
    ensures right { AreRight slots.new.items }
{
    let node = slots.len();
    slots.push_reserved(Slot {
        session,
        deadline,
        least: deadline,
    });
    mend_above(slots, node);
}

// Takes the last node away.
fn take_last(slots: &mut Vec<Slot>) -> Slot
    requires some { 0 < vec_len slots.old }
    requires right { AreRight slots.old.items }
    ensures tags { tags slots.old.items ≡ tags slots.new.items ++ tag result ∷ [] }
    ensures right { AreRight slots.new.items }
{
    let last = slots.pop().unwrap();
    let node = slots.len();
    mend_above(slots, node);
    last
}

/// Takes the node's session out. The session of the last node is put there, and is answered, if it
/// is another one.
pub(crate) fn take_out(slots: &mut Vec<Slot>, node: usize) -> Option<u64>
    requires inside { node < vec_len slots.old }
    requires right { AreRight slots.old.items }
    ensures tags { (i : ℕ) → slice_get (tags slots.new.items) i ≡ taken_out (tags slots.old.items) node i }
    ensures mover { result ≡ mover (tags slots.old.items) node }
    ensures right { AreRight slots.new.items }
{
    let last = take_last(slots);
    if node < slots.len() {
        put(slots, node, last.session, last.deadline);
        Some(last.session)
    } else {
        None
    }
}
