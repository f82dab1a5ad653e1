// What holds of the texts and numbers of the library.
ghost use Rattle.cc_library.specs.Laws.{DecimalsAreRead, OneDecoding, OneNumber};

/// A text writes at most one number: the one that `number_of` has, which is none exactly where the text writes none.
pub fn one_number()
    ensures { OneNumber }
{}

/// Bytes decode to exactly one text: the one that `decoded_text` has.
pub fn one_decoding()
    ensures { OneDecoding }
{}

/// The decimal text of a number is read as that number.
pub fn decimals_are_read()
    ensures { DecimalsAreRead }
{}
