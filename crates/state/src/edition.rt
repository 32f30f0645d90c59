// The editions of the lease rule, one of which is fixed when a session begins.
ghost use Rattle.std.specs.Prelude.{◌≡◌};
ghost use Rattle.state.specs.Start.{is_edition};

// Kept (design pass 1, C interface; also BY_CHANNEL): a caller hands the edition in as a number, and a cell that C lends keeps it.
// Credits a pair once for each output that isn't silent.
pub const BY_OUTPUT: u32 = 1;

// Credits a pair by the outputs' unmasked channels.
pub const BY_CHANNEL: u32 = 2;

// Whether a number is an edition's. Any other gets 3, before all else.
pub fn is_known(edition: u32) -> bool
    ensures { result ≡ is_edition edition }
{
    edition == BY_OUTPUT || edition == BY_CHANNEL
}
