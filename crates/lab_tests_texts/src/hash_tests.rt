//! Hashes, verifiers, tokens and digits.
use lab_seal_hashes::{Digest, Token, Verifier, digest, hmac, pbkdf2};
use std::process::Abort;

// The digits are these.
fn assert_digits(rt: &impl Abort, digits: [u8; 64], wanted: &[u8; 64]) {
    assert_eq!(rt; digits, *wanted);
}

// The bytes have these hexadecimal digits.
fn assert_bytes(rt: &impl Abort, bytes: [u8; 32], wanted: &[u8; 64]) {
    assert_digits(rt, Digest::from_bytes(bytes).digits(), wanted);
}

// RFC 4231, section 4: the keys and texts of its seven cases, with the results for SHA-256; of the
// fifth it gives the first 128 bits, and Python's `hmac` the others. Then, by Python's `hmac`, a
// key of a block, and one byte less and more.
const TAGS: [(&[u8], &[u8], &[u8; 64]); 10] = [
    (
        &[0x0b; 20],
        b"Hi There",
        b"b0344c61d8db38535ca8afceaf0bf12b881dc200c9833da726e9376c2e32cff7",
    ),
    (
        b"Jefe",
        b"what do ya want for nothing?",
        b"5bdcc146bf60754e6a042426089575c75a003f089d2739839dec58b964ec3843",
    ),
    (
        &[0xaa; 20],
        &[0xdd; 50],
        b"773ea91e36800e46854db8ebd09181a72959098b3ef8c122d9635514ced565fe",
    ),
    (
        &[
            1, 2, 3, 4, 5, 6, 7, 8, 9, 10, 11, 12, 13, 14, 15, 16, 17, 18, 19, 20, 21, 22, 23, 24,
            25,
        ],
        &[0xcd; 50],
        b"82558a389a443c0ea4cc819899f2083a85f0faa3e578f8077a2e3ff46729665b",
    ),
    (
        &[0x0c; 20],
        b"Test With Truncation",
        b"a3b6167473100ee06e0c796c2955552bfa6f7c0a6a8aef8b93f860aab0cd20c5",
    ),
    (
        &[0xaa; 131],
        b"Test Using Larger Than Block-Size Key - Hash Key First",
        b"60e431591ee0b67f0d8a26aacbf5b77f8e0bc6213728c5140546040f0ee37f54",
    ),
    (
        &[0xaa; 131],
        b"This is a test using a larger than block-size key and a larger than block-size data. \
        The key needs to be hashed before being used by the HMAC algorithm.",
        b"9b09ffa71b942fcb27635fbcd5b0e944bfdc63644f0713938a7f51535c3a35e2",
    ),
    (
        &[b'k'; 63],
        b"text",
        b"c90d83e78c64ee16fe2eefa3e8a834d79d1d3d0ea483f8d9908323b714c7f134",
    ),
    (
        &[b'k'; 64],
        b"text",
        b"0414bb1d8c0c4556cdb2028727b16610ae377b1a194b6db1f853d4297f2329bc",
    ),
    (
        &[b'k'; 65],
        b"text",
        b"5b69580123e3d7e788b7e8352ac37a3247b911c5ec0837147b74109a6382d3f5",
    ),
];

#[test]
fn texts_have_these_tags(rt: HostRuntime) {
    for (key, text, digits) in TAGS {
        assert_bytes(&rt, hmac(key, text), digits);
    }
}

const SALT: [u8; 16] = [0, 1, 2, 3, 4, 5, 6, 7, 8, 9, 10, 11, 12, 13, 14, 15];

// By Python's `hashlib.pbkdf2_hmac`, of passwords of 8, 12, 64, 65 and 128 bytes after 1, 2, 4,096
// and 10,000 rounds.
const STRETCHED: [(&[u8], &[u8], [&[u8; 64]; 4]); 5] = [
    (
        b"password",
        b"salt",
        [
            b"120fb6cffcf8b32c43e7225256c4f837a86548c92ccc35480805987cb70be17b",
            b"ae4d0c95af6b46d32d0adff928f06dd02a303f8ef3c251dfd6e2d85a95474c43",
            b"c5e478d59288c841aa530db6845c4c8d962893a001ce4e11a4963873aa98134a",
            b"5ec02b91a4b59c6f59dd5fbe4ca649ece4fa8568cdb8ba36cf41426e8805522b",
        ],
    ),
    (
        b"correct hors",
        &SALT,
        [
            b"f43e86a2c8c839ec0381ac7a1d6c52fb6254663e400873bbac390bfc607040b4",
            b"42e22b501717a573d0b4baf8afd30818a05fa70d80bf7e7b67fd62ca75d2185b",
            b"fa5490f748aabd158767d01216f5ff3780545c4ca7170379bf5fa2ab95d6cb2c",
            b"48e6ab5839098b97bd4bc60f6d8871fb6244634cbed3619773ef242d3c955115",
        ],
    ),
    (
        b"correct horse 1 battery staple correct horse 1 battery staple co",
        &SALT,
        [
            b"e1ab0945a448d744b1da7cbdbae8c24cef18df4a5912a364961036cb86ae2bf7",
            b"6ca973e311d1eeca04108907ef6781b3561beffeb0bba81573010a3805baf71b",
            b"7f9ffd954d3a57b4c032a9c52ca4db71e80820d98bbd76713f5879ef6155a855",
            b"5a2d6b6a13ca8ee61adaf8e40735ab13678a6f6dbda08fa90d85bb0a3b575b2e",
        ],
    ),
    (
        b"correct horse 1 battery staple correct horse 1 battery staple cor",
        &SALT,
        [
            b"481d053374b6a5e1c4e08e9b3d9da19b4dc471778a19113bf2e96246241a248b",
            b"415d8437a7852a30d370eb186ae588cd6a28db57b39768e5e0dfdf2a383d711b",
            b"d04ed65a9aff014358298fb590074318d5810a50476868e01ca1abe2cd294b15",
            b"6b16c3bd1591de33f645361e3c090d4dfd3ba55841bf460e30e13599f435353c",
        ],
    ),
    (
        b"correct horse 1 battery staple correct horse 1 battery staple corr\
        ect horse 1 battery staple correct horse 1 battery staple corr",
        &SALT,
        [
            b"ee10c71ef528d3d6dbef79b97b091a612462528d968c72c0948e638b20bbed99",
            b"3804e2994f7c74a1bff585a957442b753b9a2026f279c4764061176cf8a77698",
            b"7d9e3f500355e08bbf818ad5c5484c77442537c8e4b7e7d1422af286cd956ab5",
            b"beb12d98e5005a6a1911769e6dc5e11661790dd18b5025aea1281ba3455977bd",
        ],
    ),
];

// So many rounds make of the password and the salt what the digits stand for.
fn assert_stretched(rt: &impl Abort, password: &[u8], salt: &[u8], rounds: u32, digits: &[u8; 64]) {
    assert!(rt; rounds > 0);
    assert_bytes(rt, pbkdf2(password, salt, rounds), digits);
}

#[test]
fn passwords_are_stretched(rt: HostRuntime) {
    for (password, salt, [one, two, many, most]) in STRETCHED {
        assert_stretched(&rt, password, salt, 1, one);
        assert_stretched(&rt, password, salt, 2, two);
        assert_stretched(&rt, password, salt, 4096, many);
        assert_stretched(&rt, password, salt, 10_000, most);
    }
}

// What a verifier keeps of `correct horse 1` after two rounds, by Python's `hashlib.pbkdf2_hmac`.
const KEPT: &[u8; 64] = b"74a3fae6b408b58a7cb47be7333c04f97604b5efd93c25aeabae3992e3354f2a";

// A verifier, and others of the same salt and rounds whose bytes are the same but for the last, are
// asked whether they accept a password.
const ASKED: [(u8, &[u8], bool); 4] = [
    (0, b"correct horse 1", true),
    (0, b"correct horse 2", false),
    (0, b"correct horse", false),
    (1, b"correct horse 1", false),
];

#[test]
fn verifiers_accept_their_password_alone(rt: HostRuntime) {
    let parts = Verifier::make(b"correct horse 1", SALT, 2).parts();
    let salt = parts.salt;
    let kept = parts.bytes;
    assert_eq!(rt; salt, SALT);
    assert_eq!(rt; parts.rounds, 2);
    assert_bytes(&rt, kept, KEPT);
    for (other, password, is_accepted) in ASKED {
        let mut bytes = parts.bytes;
        bytes[31] ^= other;
        let verifier = Verifier::from_parts(SALT, 2, bytes);
        assert_eq!(rt;
            (other, password, verifier.accepts(password)),
            (other, password, is_accepted)
        );
    }
}

const WORDS: [u64; 8] = [1, 2, 3, 4, 0x0102_0304_0506_0708, u64::MAX, 7, 8];

// The digest of the token is the one that `sha256sum` gives of its 32 bytes.
#[test]
fn a_token_is_kept_as_its_digest(rt: HostRuntime) {
    let digest = Token::from_words(&WORDS).digest();
    let known = b"7236c00c170036c6de133a878210ddd58567aa1d0619a0f70f69e38ae6f916e9";
    assert_digits(&rt, digest.digits(), known);
}

// An example of FIPS 180-4, and the digits of a token.
const DIGITS: [&[u8; 64]; 2] = [
    b"ba7816bf8f01cfea414140de5dae2223b00361a396177a9cb410ff61f20015ad",
    b"0000000000000001000000000000000200000000000000030000000000000004",
];

#[test]
fn digits_are_read(rt: HostRuntime) {
    let [abc, token] = DIGITS;
    let read = Digest::from_digits(abc).expect(&rt, "a digest");
    assert_eq!(rt; read, digest(b"abc"));
    assert_digits(&rt, read.digits(), abc);
    let read = Token::from_digits(token).expect(&rt, "a token");
    assert_digits(&rt, read.digits(), token);
    assert_digits(&rt, Token::from_words(&WORDS).digits(), token);
}
