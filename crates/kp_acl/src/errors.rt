use kp_model::NoMemory;

/// Why an access list isn't fixed, or an id isn't made.
#[derive(Clone, Copy)]
pub enum AclFail {
    /// The list is empty, or one of its lines may not be given.
    InvalidAcl,
    /// The bytes have no colon, or what stands before the first one is no text in UTF-8.
    AuthFailed,
    /// Memory ran out.
    NoMemory,
}

impl From<NoMemory> for AclFail {
    ghost use Rattle.std.specs.Prelude.{◌≡◌};
    ghost use Rattle.kp_acl.specs.declared.errors.AclFail.{AclFail};

    ghost from_gives = { λ _ fail. fail ≡ AclFail.NoMemory };

    fn from(_refused: NoMemory) -> AclFail {
        AclFail::NoMemory
    }
}
