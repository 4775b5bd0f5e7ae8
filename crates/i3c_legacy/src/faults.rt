use thiserror::Error;

/// Why a legacy target was not declared.
#[derive(Clone, Copy, Debug, PartialEq, Eq, Drop, Error)]
pub enum LegacyFault {
    /// The static address is not one of `08` to `77`.
    #[error("a legacy target's static address is 08 to 77")]
    LegacyAddress,
    /// A target or an identity was declared at this static address.
    #[error("a legacy target or an identity stands at this static address")]
    LegacyTwice,
    /// `LEGACIES` targets were declared.
    #[error("there are too many legacy targets")]
    TooManyLegacy,
}

/// Why an identity was not declared at a static address.
#[derive(Clone, Copy, Debug, PartialEq, Eq, Drop, Error)]
pub enum DeclareFault {
    /// The static address is not one of `08` to `77`.
    #[error("a static address is 08 to 77")]
    LegacyAddress,
    /// A legacy target or an identity was declared at this static address.
    #[error("something is declared at this static address")]
    LegacyTwice,
    /// The identity was declared at another static address.
    #[error("the identity has a static address")]
    IdentityTwice,
    /// `DECLARED` identities were declared.
    #[error("there are too many declared identities")]
    TooManyDeclared,
}
