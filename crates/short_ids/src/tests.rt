use super::{Keys, short_id, sip24, wtxid};
use base_types::Hash32;

// The key of the bytes 00 to 0f, and the answers to the messages of the bytes from 00 on, by their lengths (SipHash: a
// fast short-input PRF, the reference implementation's vectors).
const VECTORS: [(usize, u64); 17] = [
    (0, 0x726f_db47_dd0e_0e31),
    (1, 0x74f8_39c5_93dc_67fd),
    (2, 0x0d6c_8009_d9a9_4f5a),
    (3, 0x8567_6696_d7fb_7e2d),
    (4, 0xcf27_94e0_2771_87b7),
    (5, 0x1876_5564_cd99_a68d),
    (6, 0xcbc9_466e_58fe_e3ce),
    (7, 0xab02_00f5_8b01_d137),
    (8, 0x93f5_f579_9a93_2462),
    (9, 0x9e00_82df_0ba9_e4b0),
    (10, 0x7a5d_bbc5_94dd_b9f3),
    (11, 0xf4b3_2f46_226b_ada7),
    (12, 0x751e_8fbc_860e_e5fb),
    (13, 0x14ea_5627_c084_3d90),
    (14, 0xf723_ca90_8e7a_f2ee),
    (15, 0xa129_ca61_49be_45e5),
    (63, 0x958a_324c_eb06_4572),
];

#[test]
fn messages_have_the_published_answers(rt: HostRuntime) {
    let mut message = [0; 63];
    for i in 0..63usize {
        message[i] = i as u8;
    }
    for (len, answer) in VECTORS {
        let (message, _) = message.split_at(len.min(63));
        assert_eq!(rt;
            sip24(0x0706_0504_0302_0100, 0x0f0e_0d0c_0b0a_0908, message),
            answer
        );
    }
}

#[test]
fn short_ids_are_those_of_the_shared_key(rt: HostRuntime) {
    let keys = Keys::from_salts(2, 1);
    assert_eq!(rt; keys, Keys::from_salts(1, 2));
    assert_eq!(rt;
        keys,
        Keys {
            k0: 0x5a63_d274_39e0_52a4,
            k1: 0xc8da_f59f_8d69_21b9
        }
    );
    let hello = wtxid(b"hello");
    assert_eq!(rt;
        hello,
        Hash32(
            *b"\x95\x95\xc9\xdf\x90\x07\x51\x48\xeb\x06\x86\x03\x65\xdf\x33\x58\x4b\x75\xbf\xf7\x82\xa5\x10\xc6\xcd\x48\x83\xa4\x19\x83\x3d\x50"
        )
    );
    assert_eq!(rt; short_id(&keys, &hello), 0xd977_c38b);
    assert_eq!(rt; short_id(&keys, &wtxid(b"abc")), 0x7d73_875b);
    let keys = Keys::from_salts(u64::MAX, 0);
    assert_eq!(rt;
        keys,
        Keys {
            k0: 0x9748_f7af_034b_e33b,
            k1: 0x7f81_fa8b_8c18_30fb
        }
    );
    assert_eq!(rt; short_id(&keys, &hello), 0x598e_973e);
}
