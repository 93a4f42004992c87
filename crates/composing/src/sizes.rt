// How many bytes writing a stream needs at the most: what `specs/Sizes.antt` names.
ghost use Rattle.std.specs.Prelude.{◌≡◌, [], ◌∷◌};
ghost use Rattle.composing.specs.Sizes.{margin, front_most, output_size};

// Those that a role writes, but for operators that waited.
pub const MARGIN: usize = 6;

// Those in front of what roles write: a count that still waits, the count of structs, per struct the count and the types of its parameters.
pub const FRONT: usize = 2 + types::MAX_STRUCTS * (types::MAX_PARAMS + 1);

// The bytes of a stream in one block.
const BLOCK_BYTES: usize = 504;

// The output that a stream is written to from its end: the bytes of the longest stream and those in front.
pub const OUTPUT: usize = types::PROGRAM_BLOCKS * BLOCK_BYTES + FRONT;

// Each of them, so that a contract can tie each constant to its definition.
pub fn all_sizes() -> [usize; 3]
    ensures { result ≡ (margin ∷ front_most ∷ output_size ∷ []) }
{
    [MARGIN, FRONT, OUTPUT]
}
