// The C interface: each function of the model on a set given by its three numbers and on lent buffers, a pointer and then a length each, answered by page 01's number.
// The promise is that of the function behind it (`Numbered` of specs/Interface.antt); any numbers and any buffers are answered.
// Alike in form, each a call and its number: the C interface.
ghost use Rattle.sets.specs.Table.{set_of};
ghost use Rattle.snova.specs.Interface.{Keygen, Sign, Verify, Status, Pack, Unpack};

use sets::Set;

// Key generation: 0, 10, 11, 13 or 20.
pub fn snova_keygen(
    v: usize,
    o: usize,
    l: usize,
    public: &[u8],
    private: &[u8],
    key: &mut [u8],
) -> u32
    ensures { Keygen (set_of v o l) public.now private.now key.old result key.new }
{
    ground::number(keys::generate(Set { v, o, l }, public, private, key))
}

// Signing: 0, 2, 10, 11, 12, 13, 14, 15, 17, 19, 20 or 21.
pub fn snova_sign(
    v: usize,
    o: usize,
    l: usize,
    public: &[u8],
    abq: &[u8],
    private: &[u8],
    vinegar: &[u8],
    target: &[u8],
    salt: &[u8],
    work: &mut [u8],
    signature: &mut [u8],
) -> u32
    ensures { Sign (set_of v o l) public.now abq.now private.now vinegar.now target.now salt.now
        work.old signature.old result work.new signature.new }
{
    ground::number(signing::sign(
        Set { v, o, l },
        public,
        abq,
        private,
        vinegar,
        target,
        salt,
        work,
        signature,
    ))
}

// The verdict: 0, 1, 10, 11, 12, 15, 16, 18 or 21.
pub fn snova_verify(
    v: usize,
    o: usize,
    l: usize,
    public: &[u8],
    abq: &[u8],
    target: &[u8],
    key: &[u8],
    signature: &[u8],
) -> u32
    ensures { Verify (set_of v o l) public.now abq.now target.now key.now signature.now result }
{
    ground::number(verdict::verify(Set { v, o, l }, public, abq, target, key, signature))
}

// Whether the set and the signature's length allow a salt: 0, 10 or 18.
pub fn snova_salt_status(v: usize, o: usize, l: usize, signature: &[u8]) -> u32
    ensures { Status (set_of v o l) signature.now result }
{
    ground::number(salt::salt_status(Set { v, o, l }, signature))
}

// Packing: 0, 22 or 23.
pub fn snova_pack(elements: &[u8], bytes: &mut [u8]) -> u32
    ensures { Pack elements.now bytes.old result bytes.new }
{
    ground::number(packing::pack(elements, bytes))
}

// Unpacking: 0 or 22.
pub fn snova_unpack(bytes: &[u8], elements: &mut [u8]) -> u32
    ensures { Unpack bytes.now elements.old result elements.new }
{
    ground::number(packing::unpack(bytes, elements))
}
