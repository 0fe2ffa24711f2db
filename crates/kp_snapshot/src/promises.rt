//! What the form of an image promises.

ghost use Rattle.kp_jute.specs.Form.{Lawful};
ghost use Rattle.kp_snapshot.specs.Snapshots.{Snapshot, HasImage, images};

/// An image is read exactly where the bytes begin with its spelling, and each snapshot has one spelling. A snapshot has one
/// exactly where its state is sound, its term is a number, and each session and each node by itself fits its fields.
pub fn laws()
    ensures image { Lawful images }
    ensures has { (s : Snapshot) → HasImage s → images.Fits s }
    ensures sound { (s : Snapshot) → images.Fits s → HasImage s }
{}
