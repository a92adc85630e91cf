// A key schedule that is known to be that of a key. A contract sees that key, so one who is lent such a schedule needs no fact of it. The calls of the library
// make their schedules themselves, and take none of this type.
#![tactic(auto)]

ghost use Rattle.std.specs.Prelude.{◌≡◌, ◌+◌, ◌-◌, ◌%◌, ◌≤◌, length};
ghost use Rattle.spec.specs.Aes.{round_key, key_expansion};
ghost use Rattle.aes_keys.specs.RoundKeys.{words, Keyed, key_of};

use aes_keys::{KeySchedule, key_schedule};
use aes_steps::Sbox;
use std::marker::Model;

#[derive(Drop)]
pub struct KeyedSchedule {
    schedule: KeySchedule,
}

impl Model for KeyedSchedule {
    ghost use Rattle.std.specs.Prelude.{List, ℕ};

    ghost Value = { List ℕ };

    ghost use Rattle.keyed_schedule.specs.Scheduled.{scheduled_key, Scheduled};

    ghost view = { scheduled_key };

    ghost invariant = { Scheduled };
}

impl KeyedSchedule {
    ghost use Rattle.aes_keys.specs.Scheduled.{Expands};

    // The schedule of a key of 16, 24 or 32 bytes.
    pub fn new(sbox: &Sbox, key: &[u8]) -> Self
        requires { (16 ≤ length key.now) × (length key.now ≤ 32) × (length key.now % 8 ≡ 0) }
        ensures { result ≡ key.now }
    {
        KeyedSchedule::of_round_keys(&key_schedule(sbox, key), key.len() / 4 + 6)
    }

    // The schedule that these round keys make, those of the key that they begin with.
    pub fn of_round_keys(keys: &[[[u8; 4]; 4]; 15], rounds: usize) -> Self
        requires bounds { (10 ≤ rounds) × (rounds ≤ 14) × (rounds % 2 ≡ 0) }
        requires keyed { Keyed (rounds - 6) (key_of (rounds - 6) keys.now) keys.now }
        ensures { result ≡ key_of (rounds - 6) keys.now }
    {
        KeyedSchedule {
            schedule: KeySchedule::of_round_keys(keys, rounds),
        }
    }

    // The number of rounds: 10, 12 or 14.
    pub fn rounds(&self) -> usize
        ensures count { result ≡ words self.now + 6 }
        ensures bounds { (10 ≤ result) × (result ≤ 14) × (result % 2 ≡ 0) }
    {
        self.schedule.rounds()
    }

    // Round key i.
    pub fn round_key(&self, i: usize) -> [[u8; 4]; 4]
        requires { i ≤ words self.now + 6 }
        ensures { result ≡ round_key (key_expansion (words self.now) self.now) i }
    {
        self.schedule.round_key(i)
    }

    // The schedule, for the functions that take one of any round keys.
    pub fn schedule(&self) -> &KeySchedule
        ensures { Expands (words self.now) self.now result.now }
    {
        &self.schedule
    }
}

#[cfg(test)]
mod tests {
    use super::*;

    // The keys of FIPS 197, appendix A.
    const KEY_16: [u8; 16] = [
        0x2b, 0x7e, 0x15, 0x16, 0x28, 0xae, 0xd2, 0xa6, 0xab, 0xf7, 0x15, 0x88, 0x09, 0xcf, 0x4f,
        0x3c,
    ];

    const KEY_24: [u8; 24] = [
        0x8e, 0x73, 0xb0, 0xf7, 0xda, 0x0e, 0x64, 0x52, 0xc8, 0x10, 0xf3, 0x2b, 0x80, 0x90, 0x79,
        0xe5, 0x62, 0xf8, 0xea, 0xd2, 0x52, 0x2c, 0x6b, 0x7b,
    ];

    const KEY_32: [u8; 32] = [
        0x60, 0x3d, 0xeb, 0x10, 0x15, 0xca, 0x71, 0xbe, 0x2b, 0x73, 0xae, 0xf0, 0x85, 0x7d, 0x77,
        0x81, 0x1f, 0x35, 0x2c, 0x07, 0x3b, 0x61, 0x08, 0xd7, 0x2d, 0x98, 0x10, 0xa3, 0x09, 0x14,
        0xdf, 0xf4,
    ];

    // Of each key the first word that follows it, and the last, through a schedule of any round keys.
    #[test]
    fn round_keys_of_the_standard(rt: HostRuntime) {
        let sbox = Sbox::new();
        let schedule = KeySchedule::new(&sbox, &KEY_16);
        let n = schedule.rounds();
        assert_eq!(rt; n, 10);
        assert_eq!(rt; u32::from_be_bytes(schedule.round_key(1)[0]), 0xa0fa_fe17);
        assert_eq!(rt; u32::from_be_bytes(schedule.round_key(n)[3]), 0xb663_0ca6);
        let schedule = KeySchedule::new(&sbox, &KEY_24);
        let n = schedule.rounds();
        assert_eq!(rt; n, 12);
        assert_eq!(rt; u32::from_be_bytes(schedule.round_key(1)[2]), 0xfe0c_91f7);
        assert_eq!(rt; u32::from_be_bytes(schedule.round_key(n)[3]), 0x0100_2202);
        let schedule = KeySchedule::new(&sbox, &KEY_32);
        let n = schedule.rounds();
        assert_eq!(rt; n, 14);
        assert_eq!(rt; u32::from_be_bytes(schedule.round_key(2)[0]), 0x9ba3_5411);
        assert_eq!(rt; u32::from_be_bytes(schedule.round_key(n)[3]), 0x706c_631e);
    }

    // The same words through schedules that are a key's.
    #[test]
    fn keyed_schedules(rt: HostRuntime) {
        let sbox = Sbox::new();
        let keyed = KeyedSchedule::new(&sbox, &KEY_16);
        let n = keyed.rounds();
        assert_eq!(rt; n, 10);
        assert_eq!(rt; u32::from_be_bytes(keyed.round_key(1)[0]), 0xa0fa_fe17);
        assert_eq!(rt; u32::from_be_bytes(keyed.round_key(n)[3]), 0xb663_0ca6);
        let keyed = KeyedSchedule::new(&sbox, &KEY_24);
        let n = keyed.rounds();
        assert_eq!(rt; n, 12);
        assert_eq!(rt; u32::from_be_bytes(keyed.round_key(1)[2]), 0xfe0c_91f7);
        assert_eq!(rt; u32::from_be_bytes(keyed.round_key(n)[3]), 0x0100_2202);
        let keyed = KeyedSchedule::new(&sbox, &KEY_32);
        let schedule = keyed.schedule();
        let n = schedule.rounds();
        assert_eq!(rt; n, 14);
        assert_eq!(rt; u32::from_be_bytes(schedule.round_key(2)[0]), 0x9ba3_5411);
        assert_eq!(rt; u32::from_be_bytes(schedule.round_key(n)[3]), 0x706c_631e);
    }
}
