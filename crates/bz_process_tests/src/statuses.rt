//! The id that a status tells.

use bz_base::Error;
use bz_proc::parse_ns_tgid;

/// Status texts, and the id that each tells, if it tells one.
static TOLD: [(&[u8], Option<u32>); 20] = [
    (b"Name:\tcat\nNStgid:\t1\n", Some(1)),
    (b"Name:\tcat\n", None),
    (b"", None),
    // The last of the ids, whatever stands between them and behind them.
    (b"NStgid:\t1337\t12\t5\n", Some(5)),
    (b"NStgid: \t\x0c\r 7 \t\x0c\r\n", Some(7)),
    (b"NStgid:5", Some(5)),
    (b"NStgid:x 5\n", Some(5)),
    // The first line with the label, which begins it.
    (b"NStgid:\t1\nNStgid:\t2\n", Some(1)),
    (b"Name:\tNStgid:\t1\n", None),
    (b" NStgid:\t1\n", None),
    (b"NSTgid:\t1\n", None),
    (b"NStgid\t1\n", None),
    (b"NStgid\nNStgid:\t3\n", Some(3)),
    // Only line feeds end lines.
    (b"Name:\tx\rNStgid:\t1\n", None),
    (b"Name:\tx\x0bNStgid:\t1\n", None),
    // A plus, zeros in front, and the greatest id.
    (b"NStgid:\t+1\n", Some(1)),
    (b"NStgid:\t0\n", Some(0)),
    (b"NStgid:\t000000000000000000000000000001\n", Some(1)),
    (b"NStgid:\t4294967295\n", Some(4294967295)),
    // Another line may hold any text.
    (b"Name:\t\xc3\xa4\nNStgid:\t1\n", Some(1)),
];

/// Texts that are no status.
static REFUSED: [&[u8]; 21] = [
    b"NStgid:\n",
    b"NStgid:",
    b"NStgid: \t\r\n",
    b"NStgid:\nNStgid:\t1\n",
    b"NStgid:\t1\t-\n",
    b"NStgid:\t-1\n",
    b"NStgid:\t+\n",
    b"NStgid:\t++1\n",
    b"NStgid:\t1+\n",
    b"NStgid:\tx\n",
    b"NStgid:\t1a\n",
    b"NStgid:\t0x1\n",
    b"NStgid:\t1.0\n",
    b"NStgid:\t4294967296\n",
    b"NStgid:\t18446744073709551617\n",
    // Neither a zero byte nor another blank stands between words.
    b"NStgid:\t1\x0b2\n",
    b"NStgid:\t1\0\n",
    b"NStgid:\t1\xc2\xa02\n",
    // The bytes aren't UTF-8.
    b"NStgid:\t1\n\xff\n",
    b"Name:\t\xc3\nNStgid:\t1\n",
    b"NStgid:\t\xff\n",
];

#[test]
fn a_status_tells_its_last_id_or_none_or_is_refused(rt: HostRuntime) {
    let told = &TOLD;
    for index in 0..told.len() {
        let (status, id) = told[index];
        assert!(rt; parse_ns_tgid(status) == Ok(id), "status {index}");
    }
    let refused = &REFUSED;
    for index in 0..refused.len() {
        let id = parse_ns_tgid(refused[index]);
        assert!(rt; id == Err(Error::InvalidData), "refused text {index}");
    }
}
