//! Laws of the definitions. A call does nothing; its clause is the law.

ghost use Rattle.std.specs.Prelude.{◌≡◌};
ghost use Rattle.sw_forms.specs.declared.limits.TheConstants.{ACTIONS_LIMIT, CALLS_LIMIT, HEADERS_LIMIT, LANES_LIMIT, OPERATIONS_LIMIT, PARTITION_LIMIT, RECORDING_LIMIT, TEXT_LIMIT};
ghost use Rattle.sw_http.specs.declared.message.TheConstants.{BODY_LIMIT};

/// The limits of the grammar, as numbers.
pub fn limits_are_numbers()
    ensures recording { RECORDING_LIMIT ≡ 16777216 }
    ensures actions { ACTIONS_LIMIT ≡ 65536 }
    ensures lanes { LANES_LIMIT ≡ 64 }
    ensures text { TEXT_LIMIT ≡ 4096 }
    ensures headers { HEADERS_LIMIT ≡ 64 }
    ensures operations { OPERATIONS_LIMIT ≡ 256 }
    ensures calls { CALLS_LIMIT ≡ 64 }
    ensures partition { PARTITION_LIMIT ≡ 64 }
    ensures body { BODY_LIMIT ≡ 1048576 }
{}
