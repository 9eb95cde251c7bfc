// Vectors for key hash texts. The hashes are fixed bytes or SHA-1 digests, three run through the alphabet of RFC 4648, and
// the texts come from the Base64 encoder of GNU coreutils.
#![tactic(auto)]

#[cfg(test)]
mod tests {
    use keyhash::{base64, element};
    use refusal::Refusal;

    const VECTORS: [(&[u8; 20], &[u8; 28]); 12] = [
        (
            b"\x00\x00\x00\x00\x00\x00\x00\x00\x00\x00\x00\x00\x00\x00\x00\x00\x00\x00\x00\x00",
            b"AAAAAAAAAAAAAAAAAAAAAAAAAAA=",
        ),
        (
            b"\xff\xff\xff\xff\xff\xff\xff\xff\xff\xff\xff\xff\xff\xff\xff\xff\xff\xff\xff\xff",
            b"//////////////////////////8=",
        ),
        (
            b"\x00\x01\x02\x03\x04\x05\x06\x07\x08\x09\x0a\x0b\x0c\x0d\x0e\x0f\x10\x11\x12\x13",
            b"AAECAwQFBgcICQoLDA0ODxAREhM=",
        ),
        (
            b"\xff\xfe\xfd\xfc\xfb\xfa\xf9\xf8\xf7\xf6\xf5\xf4\xf3\xf2\xf1\xf0\xef\xee\xed\xec",
            b"//79/Pv6+fj39vX08/Lx8O/u7ew=",
        ),
        (
            b"\x00\x10\x83\x10\x51\x87\x20\x92\x8b\x30\xd3\x8f\x41\x14\x93\x51\x55\x97\x61\x96",
            b"ABCDEFGHIJKLMNOPQRSTUVWXYZY=",
        ),
        (
            b"\x69\xb7\x1d\x79\xf8\x21\x8a\x39\x25\x9a\x7a\x29\xaa\xbb\x2d\xba\xfc\x31\xcb\x36",
            b"abcdefghijklmnopqrstuvwxyzY=",
        ),
        (
            b"\xd3\x5d\xb7\xe3\x9e\xbb\xf3\xdf\xbf\xd3\x5d\xb7\xe3\x9e\xbb\xf3\xdf\xbf\xd3\x55",
            b"0123456789+/0123456789+/01U=",
        ),
        (
            b"\x80\x00\x00\x00\x00\x00\x00\x00\x00\x00\x00\x00\x00\x00\x00\x00\x00\x00\x00\x00",
            b"gAAAAAAAAAAAAAAAAAAAAAAAAAA=",
        ),
        (
            b"\x00\x00\x00\x00\x00\x00\x00\x00\x00\x00\x00\x00\x00\x00\x00\x00\x00\x00\x00\x01",
            b"AAAAAAAAAAAAAAAAAAAAAAAAAAE=",
        ),
        (
            b"\xa9\x99\x3e\x36\x47\x06\x81\x6a\xba\x3e\x25\x71\x78\x50\xc2\x6c\x9c\xd0\xd8\x9d",
            b"qZk+NkcGgWq6PiVxeFDCbJzQ2J0=",
        ),
        (
            b"\xda\x39\xa3\xee\x5e\x6b\x4b\x0d\x32\x55\xbf\xef\x95\x60\x18\x90\xaf\xd8\x07\x09",
            b"2jmj7l5rSw0yVb/vlWAYkK/YBwk=",
        ),
        (
            b"\xaa\xaa\xaa\xaa\xaa\xaa\xaa\xaa\xaa\xaa\xaa\xaa\xaa\xaa\xaa\xaa\xaa\xaa\xaa\xaa",
            b"qqqqqqqqqqqqqqqqqqqqqqqqqqo=",
        ),
    ];

    const MALFORMED: [&[u8; 28]; 20] = [
        b"qZk+NkcGgWq6PiVxeFDCbJzQ2J1=",
        b"qZk+NkcGgWq6PiVxeFDCbJzQ2J2=",
        b"qZk+NkcGgWq6PiVxeFDCbJzQ2J3=",
        b"qZk+NkcGgWq6PiVxeFDCbJzQ2J0A",
        b"qZk+NkcGgWq6PiVxeFDCbJzQ2J0-",
        b"qZk+N-cGgWq6PiVxeFDCbJzQ2J0=",
        b"qZk+N_cGgWq6PiVxeFDCbJzQ2J0=",
        b"qZk+N cGgWq6PiVxeFDCbJzQ2J0=",
        b"qZk+N=cGgWq6PiVxeFDCbJzQ2J0=",
        b"=Zk+NkcGgWq6PiVxeFDCbJzQ2J0=",
        b"qZk+NkcGgWq6PiVxeFDCbJzQ2J==",
        b"qZk+NkcGgWq\0PiVxeFDCbJzQ2J0=",
        b"qZk+NkcGgWq@PiVxeFDCbJzQ2J0=",
        b"qZk+NkcGgWq[PiVxeFDCbJzQ2J0=",
        b"qZk+NkcGgWq`PiVxeFDCbJzQ2J0=",
        b"qZk+NkcGgWq{PiVxeFDCbJzQ2J0=",
        b"qZk+NkcGgWq:PiVxeFDCbJzQ2J0=",
        b"qZk+NkcGgWq.PiVxeFDCbJzQ2J0=",
        b"qZk+NkcGgWq,PiVxeFDCbJzQ2J0=",
        b"qZk+NkcGgWq*PiVxeFDCbJzQ2J0=",
    ];

    const ELEMENT: &[u8; 119] =
        b"&lt;hash&gt;&lt;algorithm&gt;SHA1&lt;/algorithm&gt;&lt;value&gt;qZk+NkcGgWq6PiVxeFDCbJzQ2J0=&lt;/value&gt;&lt;/hash&gt;";

    const DIGEST: &[u8; 20] =
        b"\xa9\x99\x3e\x36\x47\x06\x81\x6a\xba\x3e\x25\x71\x78\x50\xc2\x6c\x9c\xd0\xd8\x9d";

    #[test]
    fn writes_and_reads_the_vectors(rt: HostRuntime) {
        for (hash, text) in VECTORS {
            assert_eq!(rt; base64::encode(*hash), *text);
            assert_eq!(rt; base64::decode(*text), Ok(*hash));
        }
    }

    #[test]
    fn refuses_what_is_not_canonical(rt: HostRuntime) {
        for chars in MALFORMED {
            assert_eq!(rt; base64::decode(*chars), Err(Refusal::Malformed));
        }
    }

    #[test]
    fn reads_the_whole_element_only(rt: HostRuntime) {
        let whole = *ELEMENT;
        assert_eq!(rt; element::read(&whole), Ok(*DIGEST));
        assert_eq!(rt; element::write(*DIGEST), whole);
        assert_eq!(rt; element::read(&whole[1..]), Err(Refusal::Malformed));
        assert_eq!(rt; element::read(&whole[0..118]), Err(Refusal::Malformed));
        assert_eq!(rt; element::read(b""), Err(Refusal::Malformed));
    }

    #[test]
    fn refuses_an_element_with_one_byte_changed(rt: HostRuntime) {
        for i in 0..element::LENGTH {
            let mut damaged = *ELEMENT;
            damaged[i] = b'*';
            assert_eq!(rt; element::read(&damaged), Err(Refusal::Malformed));
        }
    }

    #[test]
    fn a_refusal_has_its_code(rt: HostRuntime) {
        assert_eq!(rt; Refusal::Malformed.code(), 402);
    }
}
