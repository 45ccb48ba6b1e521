use cx_text::{
    Form, ItemForm, Lines, Row, Value, is_text, put_form, put_line, put_number, put_value,
    read_form, read_line, split_words,
};
use std::alloc::{AllocError, Global};

#[test]
fn lines_with_all_ends(rt: HostRuntime) {
    let mut lines = Lines::of(100, b"main\r\n\n# end\rx\nlast");
    for want in [b"main".as_slice(), b"", b"# end\rx", b"last"] {
        match lines.next() {
            None => assert!(rt; false),
            Some(line) => {
                assert!(rt; line.bytes == want);
                assert!(rt; !line.over);
            }
        }
    }
    assert!(rt; lines.next().is_none());
}

#[test]
fn last_line_passes_the_limit(rt: HostRuntime) {
    let mut lines = Lines::of(4, b"a\nb\ncd\ne");
    for want in [false, false, true] {
        match lines.next() {
            None => assert!(rt; false),
            Some(line) => assert_eq!(rt; line.over, want),
        }
    }
    assert!(rt; lines.next().is_none());
}

#[test]
fn bytes_of_a_line(rt: HostRuntime) {
    assert!(rt; is_text(b"a\t~ "));
    assert!(rt; !is_text(b"a\r"));
    assert!(rt; !is_text(b"\x7f"));
}

/// The text that a line is written as again, after it was read; none where it has no form.
fn written_again<F: Row>(alloc: Global, line: &[u8]) -> Result<Vec<u8>, AllocError> {
    let mut words = Vec::new(alloc);
    let mut values = Vec::new(alloc);
    let mut out = Vec::new(alloc);
    split_words(&mut words, line)?;
    let form: Option<F> = read_line(words.as_slice(), &mut values)?;
    match form {
        None => {}
        Some(form) => put_line(&mut out, form, values.as_slice())?,
    }
    Ok(out)
}

#[test]
fn scenario_lines(rt: HostRuntime) -> Result<(), AllocError> {
    let cases: [(&[u8], &[u8]); 8] = [
        (
            b"\twait_stop c m st  007 >= -0 ",
            b"wait_stop c m st 7 >= 0\n",
        ),
        (b"stop s main a b", b"stop s main a b\n"),
        (
            b"mutex m 18446744073709551616",
            b"mutex m 18446744073709551616\n",
        ),
        (b"mutex m 100000000000000000000", b""),
        (b"thread abcdefghijklmnopq", b""),
        (b"#thread a", b""),
        (b"thread ok", b""),
        (b"cxthread 2", b""),
    ];
    for (line, want) in cases {
        let out = written_again::<Form>(rt.alloc(), line)?;
        assert!(rt; out.as_slice() == want);
    }
    Ok(())
}

#[test]
fn record_lines(rt: HostRuntime) -> Result<(), AllocError> {
    let cases: [(&[u8], &[u8]); 6] = [
        (b"+ m 0 set 3 5", b"+ m 0 set 3 5\n"),
        (b"+ p 0 set value 5", b"+ p 0 set value 5\n"),
        (b"= over-expected", b"= over-expected\n"),
        (b"= -3", b"= -3\n"),
        (b"= main", b"= main\n"),
        (b"stuck main", b""),
    ];
    for (line, want) in cases {
        let out = written_again::<ItemForm>(rt.alloc(), line)?;
        assert!(rt; out.as_slice() == want);
    }
    Ok(())
}

#[test]
fn forms_of_a_scenario(rt: HostRuntime) -> Result<(), AllocError> {
    let mut values = Vec::new(rt.alloc());
    let form = read_form(&[b"join", b"main"], &mut values)?;
    assert!(rt; matches!(form, Some(Form::Join)));
    assert!(rt; matches!(values.as_slice(), [Value::Word(b"main")]));
    let mut out = Vec::new(rt.alloc());
    put_form(&mut out, Form::Join, values.as_slice())?;
    assert!(rt; out.as_slice() == b"join main\n".as_slice());
    Ok(())
}

#[test]
fn numbers_and_values_are_added(rt: HostRuntime) -> Result<(), AllocError> {
    let mut out = b"add ".to_vec(rt.alloc())?;
    put_number(&mut out, -9_223_372_036_854_775_808)?;
    out.push(b' ')?;
    put_number(&mut out, 0)?;
    out.push(b' ')?;
    put_value(&mut out, Value::Word(b"main"))?;
    out.push(b' ')?;
    put_value(&mut out, Value::Number(18_446_744_073_709_551_616))?;
    let want = b"add -9223372036854775808 0 main 18446744073709551616";
    assert!(rt; out.as_slice() == want.as_slice());
    Ok(())
}
