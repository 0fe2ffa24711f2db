//! Laws of the definitions. The contract of each function is a law; the function does nothing.
ghost use Rattle.std.specs.Prelude.{◌≡◌, ℕ, ◌||◌, nat_eq, false, drop, Option, None};
ghost use Rattle.std.specs.Ordering.{nat_cmp};
ghost use Rattle.kp_layers.specs.Layering.{Layering, staged_of, first_layer, empty_layering, begun, written, undone, sealed, abandoned, front_committed, back_dropped};
ghost use Rattle.kp_layers.specs.Used.{is_written, is_used, last_layer};

/// A key comes into use only by a write of it.
pub fn keys_come_with_their_writes<V>()
    ensures empty { (k : ℕ) → is_used (empty_layering {R = nat_cmp} {V = V}) k ≡ false }
    ensures begun { (l : Layering nat_cmp V) (k : ℕ) → l.staged ≡ None → is_used (begun l) k ≡ is_used l k }
    ensures written { (l : Layering nat_cmp V) (key : ℕ) (value : Option V) (k : ℕ) → is_used (written l key value) k ≡ (is_used l k || nat_eq k key) }
    ensures sealed { (l : Layering nat_cmp V) (k : ℕ) → is_used (sealed l) k ≡ is_used l k }
{}

/// A key goes out of use only with the writes of the layer that goes: those that are taken back, or
/// those that are made on the base. So after a change only the keys of these writes need a look.
pub fn keys_go_with_their_writes<V>()
    ensures undone { (l : Layering nat_cmp V) (mark k : ℕ) → is_used l k ≡ (is_used (undone l mark) k || is_written nat_cmp (drop mark (staged_of l)) k) }
    ensures abandoned { (l : Layering nat_cmp V) (k : ℕ) → is_used l k ≡ (is_used (abandoned l) k || is_written nat_cmp (staged_of l) k) }
    ensures committed { (l : Layering nat_cmp V) (k : ℕ) → is_used l k ≡ (is_used (front_committed l) k || is_written nat_cmp (first_layer l.layers) k) }
    ensures dropped { (l : Layering nat_cmp V) (k : ℕ) → is_used l k ≡ (is_used (back_dropped l) k || is_written nat_cmp (last_layer l.layers) k) }
{}
