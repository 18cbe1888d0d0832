// Laws of the numbers of instructions and of kinds of block.

ghost use Rattle.wasm_num.specs.Laws.{NumsAreFound, FoundNumsHaveTheOpcode, KindsAreFound, FoundKindsHaveTheNumber};

/// Each number instruction is found by its opcode, and each opcode is that of the instruction found by it.
pub fn nums_have_their_opcodes()
    ensures found { NumsAreFound }
    ensures exact { FoundNumsHaveTheOpcode }
{}

/// Each kind of block is found by its number, and each number is that of the kind found by it.
pub fn kinds_have_their_numbers()
    ensures found { KindsAreFound }
    ensures exact { FoundKindsHaveTheNumber }
{}
