// The parts of a record that may be absent or stand in lists: how Table I lays each out, and what its octets hold. What is done with parts, whichever they are, is
// a trait over `Part` in the crate that does it.
#![tactic(auto)]

ghost use Rattle.std.specs.Prelude.{ℕ, List};
ghost use Rattle.codec.specs.Codec.{Codec};
ghost use Rattle.header.specs.Table.{address, addresses, dtg, stamp, identity, requests, response, reference, references};
ghost use Rattle.header.specs.Zero.{no_address, no_addresses, no_dtg, no_stamp, no_identity, no_requests, no_response, no_reference, no_references};
ghost use Rattle.record_octets.specs.Record.{size_of_address, address_in, size_of_addresses, addresses_in, size_of_dtg, dtg_in, size_of_stamp, stamp_in, size_of_identity, identity_in, size_of_requests, requests_in, size_of_response, response_in, size_of_reference, reference_in, size_of_references, references_in};

use header::{Address, Addresses, Dtg, Identity, Reference, References, Requests, Response, Stamp};
use record_octets::{
    in_address, in_addresses, in_dtg, in_identity, in_reference, in_references, in_requests,
    in_response, in_stamp,
};

pub trait Part {
    // How the table lays it out.
    ghost rule: { Codec Self };

    // What stands in the cells of an absent one.
    ghost none: { Self };

    // What its octets hold, and how many they are.
    ghost held: { List ℕ → Self };

    ghost OCTETS: { ℕ };

    const OCTETS: usize;
}

// One that stands in lists.
pub trait Entry: Part {
    // How many may follow the first.
    ghost more: { ℕ };
}

impl Part for Address {
    ghost rule = { address };

    ghost none = { no_address };

    ghost held = { address_in };

    ghost OCTETS = { size_of_address };

    const OCTETS: usize = in_address::END;
}

impl Part for Addresses {
    ghost rule = { addresses 15 };

    ghost none = { no_addresses };

    ghost held = { addresses_in };

    ghost OCTETS = { size_of_addresses };

    const OCTETS: usize = in_addresses::END;
}

impl Part for Dtg {
    ghost rule = { dtg };

    ghost none = { no_dtg };

    ghost held = { dtg_in };

    ghost OCTETS = { size_of_dtg };

    const OCTETS: usize = in_dtg::END;
}

impl Part for Stamp {
    ghost rule = { stamp };

    ghost none = { no_stamp };

    ghost held = { stamp_in };

    ghost OCTETS = { size_of_stamp };

    const OCTETS: usize = in_stamp::END;
}

impl Part for Identity {
    ghost rule = { identity };

    ghost none = { no_identity };

    ghost held = { identity_in };

    ghost OCTETS = { size_of_identity };

    const OCTETS: usize = in_identity::END;
}

impl Part for Requests {
    ghost rule = { requests };

    ghost none = { no_requests };

    ghost held = { requests_in };

    ghost OCTETS = { size_of_requests };

    const OCTETS: usize = in_requests::END;
}

impl Part for Response {
    ghost rule = { response };

    ghost none = { no_response };

    ghost held = { response_in };

    ghost OCTETS = { size_of_response };

    const OCTETS: usize = in_response::END;
}

impl Part for Reference {
    ghost rule = { reference };

    ghost none = { no_reference };

    ghost held = { reference_in };

    ghost OCTETS = { size_of_reference };

    const OCTETS: usize = in_reference::END;
}

impl Part for References {
    ghost rule = { references };

    ghost none = { no_references };

    ghost held = { references_in };

    ghost OCTETS = { size_of_references };

    const OCTETS: usize = in_references::END;
}

impl Entry for Address {
    ghost more = { 15 };
}

impl Entry for Reference {
    ghost more = { 3 };
}
