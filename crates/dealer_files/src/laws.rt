//! What files, parts and faults have to do with one another. A law is the contract of a function that does
//! nothing.

ghost use Rattle.dealer_files.specs.Laws.{FileHasNoFault, FileIsOfOnePart, EachIsFileOrFaults};
ghost use Rattle.dealer_files.specs.Garbling.{OffsetsAreOdd, KeyBitsAreHonest, SharedBitsAreHonest};

/// The file of a part shows no fault: with the contract of `read_dealer`, it is read wherever memory suffices.
pub fn a_file_has_no_fault()
    ensures { FileHasNoFault }
{}

/// Bytes are the file of one part at most: what is read of a written part is that part, and what is written of a
/// part that was read is the file that it was read from.
pub fn a_file_is_of_one_part()
    ensures { FileIsOfOnePart }
{}

/// Of each list of bytes exactly one is the case: it is the file of one part, or it shows one first fault.
pub fn bytes_are_a_file_or_fault()
    ensures { EachIsFileOrFaults }
{}

/// Parts that are honest together give what the laws of garbled tables, of their evaluation and of conversions
/// suppose of offsets and of records.
pub fn honest_parts_serve_garbling()
    ensures odd { OffsetsAreOdd }
    ensures keys { KeyBitsAreHonest }
    ensures shared { SharedBitsAreHonest }
{}
