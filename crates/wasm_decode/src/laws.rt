// A law of encoded modules.

ghost use Rattle.wasm_decode.specs.Laws.{EncodedIsDecoded};

/// What `encode` writes, `decode` reads: by its clauses it then answers the module without its custom sections.
pub fn encoded_is_decoded()
    ensures { EncodedIsDecoded }
{}
