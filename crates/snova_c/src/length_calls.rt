// The lengths of the operations' buffers. Each export calls the function of `snova` with the same name, and promises what it promises.
ghost use Rattle.std.specs.Prelude.{◌≡◌};
ghost use Rattle.ground.specs.Pick.{pick};
ghost use Rattle.sets.specs.Table.{set_of};
ghost use Rattle.sets.specs.Sets.{allowed_set};
ghost use Rattle.sets.specs.Sets.{public_bytes, abq_bytes, private_bytes, vinegar_bytes, target_bytes, key_bytes, signature_bytes, work_bytes};

// The public stream.
#[unsafe(no_mangle)]
pub extern "C" fn snova_public_bytes(v: usize, o: usize, l: usize) -> usize
    ensures { result ≡ pick (allowed_set (set_of v o l)) (public_bytes (set_of v o l)) 0 }
{
    snova::snova_public_bytes(v, o, l)
}

// The ABQ stream.
#[unsafe(no_mangle)]
pub extern "C" fn snova_abq_bytes(v: usize, o: usize, l: usize) -> usize
    ensures { result ≡ pick (allowed_set (set_of v o l)) (abq_bytes (set_of v o l)) 0 }
{
    snova::snova_abq_bytes(v, o, l)
}

// The private stream.
#[unsafe(no_mangle)]
pub extern "C" fn snova_private_bytes(v: usize, o: usize, l: usize) -> usize
    ensures { result ≡ pick (allowed_set (set_of v o l)) (private_bytes (set_of v o l)) 0 }
{
    snova::snova_private_bytes(v, o, l)
}

// The vinegar stream.
#[unsafe(no_mangle)]
pub extern "C" fn snova_vinegar_bytes(v: usize, o: usize, l: usize) -> usize
    ensures { result ≡ pick (allowed_set (set_of v o l)) (vinegar_bytes (set_of v o l)) 0 }
{
    snova::snova_vinegar_bytes(v, o, l)
}

// The target.
#[unsafe(no_mangle)]
pub extern "C" fn snova_target_bytes(v: usize, o: usize, l: usize) -> usize
    ensures { result ≡ pick (allowed_set (set_of v o l)) (target_bytes (set_of v o l)) 0 }
{
    snova::snova_target_bytes(v, o, l)
}

// The key.
#[unsafe(no_mangle)]
pub extern "C" fn snova_key_bytes(v: usize, o: usize, l: usize) -> usize
    ensures { result ≡ pick (allowed_set (set_of v o l)) (key_bytes (set_of v o l)) 0 }
{
    snova::snova_key_bytes(v, o, l)
}

// The signature, its salt included.
#[unsafe(no_mangle)]
pub extern "C" fn snova_signature_bytes(v: usize, o: usize, l: usize) -> usize
    ensures { result ≡ pick (allowed_set (set_of v o l)) (signature_bytes (set_of v o l)) 0 }
{
    snova::snova_signature_bytes(v, o, l)
}

// The work area.
#[unsafe(no_mangle)]
pub extern "C" fn snova_work_bytes(v: usize, o: usize, l: usize) -> usize
    ensures { result ≡ pick (allowed_set (set_of v o l)) (work_bytes (set_of v o l)) 0 }
{
    snova::snova_work_bytes(v, o, l)
}
