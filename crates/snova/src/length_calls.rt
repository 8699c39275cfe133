// The lengths, for callers in C: the exact length in bytes of each stream and buffer of the set with these three numbers; 0 for a set that is refused.
// The promise is that of the function of `sets` behind it.
// Alike in form, since the C interface has a name for each length.
ghost use Rattle.std.specs.Prelude.{◌≡◌};
ghost use Rattle.ground.specs.Pick.{pick};
ghost use Rattle.sets.specs.Table.{set_of};
ghost use Rattle.sets.specs.Sets.{allowed_set};
ghost use Rattle.sets.specs.Sets.{public_bytes, abq_bytes, private_bytes, vinegar_bytes, target_bytes, key_bytes, signature_bytes, work_bytes};

use sets::Set;

// The public stream.
pub fn snova_public_bytes(v: usize, o: usize, l: usize) -> usize
    ensures { result ≡ pick (allowed_set (set_of v o l)) (public_bytes (set_of v o l)) 0 }
{
    sets::public_bytes(Set { v, o, l })
}

// The ABQ stream.
pub fn snova_abq_bytes(v: usize, o: usize, l: usize) -> usize
    ensures { result ≡ pick (allowed_set (set_of v o l)) (abq_bytes (set_of v o l)) 0 }
{
    sets::abq_bytes(Set { v, o, l })
}

// The private stream.
pub fn snova_private_bytes(v: usize, o: usize, l: usize) -> usize
    ensures { result ≡ pick (allowed_set (set_of v o l)) (private_bytes (set_of v o l)) 0 }
{
    sets::private_bytes(Set { v, o, l })
}

// The vinegar stream.
pub fn snova_vinegar_bytes(v: usize, o: usize, l: usize) -> usize
    ensures { result ≡ pick (allowed_set (set_of v o l)) (vinegar_bytes (set_of v o l)) 0 }
{
    sets::vinegar_bytes(Set { v, o, l })
}

// The target.
pub fn snova_target_bytes(v: usize, o: usize, l: usize) -> usize
    ensures { result ≡ pick (allowed_set (set_of v o l)) (target_bytes (set_of v o l)) 0 }
{
    sets::target_bytes(Set { v, o, l })
}

// The key.
pub fn snova_key_bytes(v: usize, o: usize, l: usize) -> usize
    ensures { result ≡ pick (allowed_set (set_of v o l)) (key_bytes (set_of v o l)) 0 }
{
    sets::key_bytes(Set { v, o, l })
}

// The signature, its salt included.
pub fn snova_signature_bytes(v: usize, o: usize, l: usize) -> usize
    ensures { result ≡ pick (allowed_set (set_of v o l)) (signature_bytes (set_of v o l)) 0 }
{
    sets::signature_bytes(Set { v, o, l })
}

// The work area.
pub fn snova_work_bytes(v: usize, o: usize, l: usize) -> usize
    ensures { result ≡ pick (allowed_set (set_of v o l)) (work_bytes (set_of v o l)) 0 }
{
    sets::work_bytes(Set { v, o, l })
}
