//! What is proved of encoding and decoding together, as the contract of a function that does nothing.
ghost use Rattle.rv_code.specs.Laws.{DecodingUndoesEncoding};

/// `decode(encode(i))` is `i`, for every valid instruction.
pub fn decoding_undoes_encoding()
    ensures { DecodingUndoesEncoding }
{}
