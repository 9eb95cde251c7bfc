// Examples of whole inputs, with mistakes, and of what is answered. The texts come from GNU coreutils' Base64 encoder, the
// digests from FIPS 180-4 and the tag from RFC 2202.
#![tactic(auto)]

#[cfg(test)]
mod tests {
    use script::play::play;
    use std::test::Fail;

    const INPUT: &[u8] =
        b"hash &lt;hash&gt;&lt;algorithm&gt;SHA1&lt;/algorithm&gt;&lt;value&gt;qZk+NkcGgWq6PiVxeFDCbJzQ2J0=&lt;/value&gt;&lt;/hash&gt;\n# a comment\n\n  \t\nhash\ntext A9993E364706816ABA3E25717850C26C9CD0D89D\r\ntext a9993e364706816aba3e25717850c26c9cd0d89\ntext a9993e364706816aba3e25717850c26c9cd0d89g\nHASH &lt;hash&gt;&lt;algorithm&gt;SHA1&lt;/algorithm&gt;&lt;value&gt;qZk+NkcGgWq6PiVxeFDCbJzQ2J0=&lt;/value&gt;&lt;/hash&gt;\nhash  &lt;hash&gt;&lt;algorithm&gt;SHA1&lt;/algorithm&gt;&lt;value&gt;qZk+NkcGgWq6PiVxeFDCbJzQ2J0=&lt;/value&gt;&lt;/hash&gt;\nhash &lt;hash&gt;&lt;algorithm&gt;SHA1&lt;/algorithm&gt;&lt;value&gt;qZk+NkcGgWq6PiVxeFDCbJzQ2J0=&lt;/value&gt;&lt;/hash&gt;\ncovers 0203414243 ABC\ncovers 0203414243 ABCD\ncovers 0200 ABC\ncovers - ABC\ncovers 01 A B\ncovers 01\ncovers 0 A\ncovers\nsha1 616263\nsha1 -\nhmac 4a656665 7768617420646f2079612077616e7420666f72206e6f7468696e673f\nsha1\nhmac 00\nhmac 000000000000000000000000000000000000000000 00";

    const OUTPUT: &[u8] =
        b"hash a9993e364706816aba3e25717850c26c9cd0d89d\nerror 5: no text, expected: hash TEXT\ntext &lt;hash&gt;&lt;algorithm&gt;SHA1&lt;/algorithm&gt;&lt;value&gt;qZk+NkcGgWq6PiVxeFDCbJzQ2J0=&lt;/value&gt;&lt;/hash&gt;\nerror 7: not 40 hexadecimal digits, expected: text HEX\nerror 8: not 40 hexadecimal digits, expected: text HEX\nerror 9: unknown statement, expected: hash TEXT, text HEX, covers TERMHEX NAME, sha1 HEX or hmac KEYHEX HEX\nmalformed\nhash a9993e364706816aba3e25717850c26c9cd0d89d\nyes\nno\nmalformed\nmalformed\nmalformed\nerror 17: not hexadecimal digits and a name, expected: covers TERMHEX NAME\nerror 18: not hexadecimal digits and a name, expected: covers TERMHEX NAME\nerror 19: not hexadecimal digits and a name, expected: covers TERMHEX NAME\na9993e364706816aba3e25717850c26c9cd0d89d\nda39a3ee5e6b4b0d3255bfef95601890afd80709\neffcdf6ae5eb2fa2d27416d5f184df9c259a7c79\nerror 23: not hexadecimal digits, expected: sha1 HEX\nerror 24: not a key of at most 20 bytes and hexadecimal digits, expected: hmac KEYHEX HEX\nerror 25: not a key of at most 20 bytes and hexadecimal digits, expected: hmac KEYHEX HEX\n";

    const COUNTS: &str =
        "# texts read as a hash: 2\n# texts malformed: 1\n# texts written: 1\n# terms judged: 5\n# lines in error: 10\n";

    #[test]
    fn answers_each_line_and_goes_on(rt: HostRuntime) -> Result<(), Fail> {
        let session = play(rt.alloc(), INPUT)?;
        assert!(rt; session.output.as_slice() == OUTPUT);
        assert!(rt; session.account.has_mistakes());
        assert!(rt; session.account.counts(rt.alloc())?.as_str() == COUNTS);
        assert_eq!(rt; session.account.repeated(rt.alloc())?.len(), 1);
        Ok(())
    }

    #[test]
    fn an_empty_input_has_no_answers(rt: HostRuntime) -> Result<(), Fail> {
        let session = play(rt.alloc(), b"")?;
        assert_eq!(rt; session.output.len(), 0);
        assert!(rt; !session.account.has_mistakes());
        Ok(())
    }
}
