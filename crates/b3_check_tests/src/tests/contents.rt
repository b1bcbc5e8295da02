// Contents and their check lines.

use crate::tests::owned::append;
use std::alloc::Global;
use std::process::Abort;

/// The check lines of contents whose bytes are 0 to 250, over and over, as many as the name says. They are those of
/// other implementations, and `tools/faults` has the program write them too. The lengths lie around none, a chunk, one to three spans of 16 KiB, one and two reads, one to
/// four pieces of 256 KiB, and 2^24; the others have spans that tests count.
const LINES: [&str; 41] = [
    "af1349b9f5f9a1a6a0404dea36dcc9499bcb25c9adc112b7cc9a93cae41f3262  g0",
    "2d3adedff11b61f14c886e35afa036736dcd87a74d27b5c1510225d0f592e213  g1",
    "10108970eeda3eb932baac1428c7a2163b0e924c9a9e25b35bba72b28f70bd11  g1023",
    "42214739f095a406f3fc83deb889744ac00df831c10daa55189b5d121c855af7  g1024",
    "d00278ae47eb27b34faecf67b4fe263f82d5412916c1ffd97c8cb7fb814b8444  g1025",
    "7529418ecb789a30254899f229522ccde05234d2019c5ec5072bc4685a57658d  g16383",
    "f875d6646de28985646f34ee13be9a576fd515f76b5b0a26bb324735041ddde4  g16384",
    "1dabe216be2578830263b049de1639f39f05a4da616b9b78c7a5e4e41662fd1f  g16385",
    "be214034ea329f1cdc64246946da7c4287d93bd61b68c6c3a634a4345f58ff21  g32767",
    "162183d1f9184474f5a5c9e6224e66720cdb6523f822e52d9b1efa30893f48f9  g32768",
    "da589428d9b32c97658a04a21c0c8a38aad2ac402120819d956fd6d62bbfa36e  g32769",
    "ccd32b4544a24c50fbefb249e10a8fcedc26e2794c79eb8a44ad0631bf07f53f  g40000",
    "a574a296771532cd2e7283b1397942bd56e41f358b53aacd42b6eb7f3efd1e09  g49151",
    "88c8baf84eb0b231f985d2be3540430506a9280fd0ec4cec74524bbc33bbc5df  g49152",
    "447d09cdb7cc2b870f041eda4d9b759195db784047b12666ec29e6905d38ac9c  g49153",
    "de7d0f4c044c56f56e0c5f7ab247be9491c4520e8688f0f0d25406f46fdfbd03  g65535",
    "68d647e619a930e7b1082f74f334b0c65a315725569bdc123f0ee11881717bfe  g65536",
    "7c99f9840a73dfcb6e5bfe4ff6d1558acab7e015640790c26411818bdbe17eca  g65537",
    "de433db299ce5940eb72f08f509f90fa93e8b8c38e26c927310b4f8b98e2f33c  g131071",
    "306baba93b1a393cbd35172837c98b0f59a41f64e1b2682ae102d8b2534b9e1c  g131072",
    "f837d4254d24ba3d50fe3743d46e4af6db5f5d6ab0469197d94e7ba1e906c4d8  g131073",
    "88939057eab3697bc0f667ad559433aad6e7a1bf5172aa28cc5420785b1e368c  g196608",
    "4fbb10c248894f1b56ec8298555b96e597147150a061b1cf1af19f16dbc0557b  g262143",
    "d57dc906e20d3fd326ffaa85535500486f46a0979f5a323f028dcabfd381fd4a  g262144",
    "531c319935cf78f34869faebd865e5748266b1799039103bfb851a680d9ed30c  g262145",
    "f73390a9be0df966471208839aeb0402a93a45e056fa02998b6eee97bf96a04e  g524287",
    "b467afa334cd7dedd76e3a9a4b0e8a5ed278713f2f4e220a682aa30c7fcd140b  g524288",
    "7978ac1ee80f7f7c115d25551f9c54cb3a2974cfcb8f5ab93de706350d143286  g524289",
    "576c69b84f4b42b2970819d13f3996bd7e7395eac44993013e3a5c59c3c246a7  g786431",
    "acca1229e537587e75108d1a25c3e28d7ce8036556137dc2973d9289187e58d4  g786432",
    "5599c118148036c9342db6d8be1d586d21948df6ace7479efb33c6ff37c47ef5  g786433",
    "f32b849d19684c18c138cf13e29dbadc776f4bc2a56b477680ef546b39ac3f71  g1048575",
    "74cb441fd087764ca9c3694da742ebe30cbeb3060a17009ca81825c7a8d10343  g1048576",
    "2f053cd7472cf0cd2f9adaf45c1180255b91b9a865404a63671a0ee5f792ed33  g1048577",
    "96fbba37478c16b7614c890b26832f67b541cf14e69ab8ebf0c739818588c9f1  g2097152",
    "60cd1e4e80a3f746015c4453978d0a7f901e0764b2931bbc9c44ab7b18fc7684  g6291456",
    "03257e11baab468ebb5b5131dbbf8d50568eed1cf40bb2180c1ae1c552fed2fd  g6291457",
    "397e524ebb0625e4322c06508780ab35db716b71641148327b61dc57396e035c  g16777215",
    "869b1292c8bed5bdb2e0075e0c50ccf8b24b33a0f81071c86206bd8fdb269579  g16777216",
    "3a734b24df8a7d6c13f0a980f06b74c9ffe3ea327dd5a23a3a108533c18684ff  g16777217",
    "b13f9146887dacfa1117bc94bb06ad3c645c7b10b522aa7ec651c425dc10dbb2  g50331648",
];

/// These lines. No caller has them all among the facts from which it is proved.
pub fn lines() -> &'static [&'static str] {
    &LINES
}

/// The line of a name that is among these.
pub fn line_of(name: &str) -> &'static str {
    for line in lines() {
        if line.ends_with(name) {
            return *line;
        }
    }
    ""
}

/// So many bytes of such a content.
pub fn pattern(rt: &impl Abort, alloc: Global, count: usize) -> Vec<u8> {
    let mut bytes = Vec::with_capacity(alloc, count).expect(rt, "memory");
    for k in 0..count {
        append(rt, &mut bytes, (k % 251) as u8);
    }
    bytes
}
