ghost use Rattle.std.specs.Prelude.{◌≡◌, ◌≤◌};
ghost use Rattle.memo.specs.Buckets.{bucket_of};

// Which bucket of mask + 1 a key is in. A multiplicative hash: the middle bits depend on all lower bits of the key's parts.
#[tactic(auto, unfolding(crate::specs::Buckets::bucket_of))]
pub fn bucket(mask: usize, n: u8, x: u32, y: u32) -> usize
    ensures value { result ≡ bucket_of mask n x y }
    ensures within { result ≤ mask }
{
    let a = u64::from(x).wrapping_mul(0x9E37_79B9_7F4A_7C15);
    let b = u64::from(y).wrapping_mul(0xC2B2_AE3D_27D4_EB4F);
    let c = u64::from(n).wrapping_mul(0x1656_67B1_9E37_79F9);
    let h = a.wrapping_add(b).wrapping_add(c);
    ((h >> 32) as usize) & mask
}
