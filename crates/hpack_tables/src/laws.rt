//! Laws of header blocks, each the contract of a function that does nothing.
ghost use Rattle.hpack_tables.specs.Laws.{ReadBack, UpdateBack, PrefixFree, OneText, OneBlock, WrittenBlock, WorkedBlocks};

/// What is written is read back.
pub fn read_back()
    ensures { ReadBack }
{}

/// An update that is written is read back as the table resized.
pub fn update_back()
    ensures { UpdateBack }
{}

/// No code of the Huffman code begins with another one.
pub fn prefix_free()
    ensures { PrefixFree }
{}

/// What bytes are read as in the Huffman code is the one text whose code they are.
pub fn one_text()
    ensures { OneText }
{}

/// What a block is read as is the one list of headers, and the one table, that its bytes are a block
/// of.
pub fn one_block()
    ensures { OneBlock }
{}

/// What is written is a block of its headers.
pub fn written_block()
    ensures { WrittenBlock }
{}

/// Some entries, codes and blocks, computed from the definitions alone.
pub fn worked_blocks()
    ensures { WorkedBlocks }
{}
