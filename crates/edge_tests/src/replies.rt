//! The heads of replies.

ghost use Rattle.std.specs.Prelude.{◌≡◌};

use b2_base::{BucketNum, Extent, List, Memory, Moment, Text, VersionNum};
use b2_types::{AnswerOf, ContentOf, Fault, Mark, RowKind, ShownDigest, ShownFile, Span};
use http_edge::reply_head;
use rule_table::FaultKind;
use std::alloc::Global;
use std::test::Fail;

// A file of five bytes with one pair of information.
fn file(alloc: Global, mark: Mark) -> Result<ShownFile, Fail> {
    let key = Text::copy(alloc, "src_last_modified_millis")?;
    let value = Text::copy(alloc, "1 %")?;
    Ok(ShownFile {
        account: Text::copy(alloc, "a1b2c3d4e5f6")?,
        action: RowKind::Upload,
        bucket: BucketNum::new(1).ok_or("a bucket")?,
        length: 5,
        digest: Some(ShownDigest {
            mark,
            digest: [1; 20],
        }),
        kind: Some(Text::copy(alloc, "text/plain")?),
        num: VersionNum::new(2).ok_or("a version")?,
        info: List::of(vec![in alloc; (key, value)]?),
        name: Text::copy(alloc, "a b/\u{e9}")?,
        retention: None,
        hold: None,
        stamp: Moment::from_reading(2_000),
    })
}

const WHOLE: &str =
    "HTTP/1.1 200 OK\r\nContent-Type: text/plain\r\nContent-Length: 5\r\nAccept-Ranges: bytes\r\nX-Bz-File-Id: 4_z00000001_f0000000000000002\r\nX-Bz-File-Name: a%20b/%C3%A9\r\nX-Bz-Content-Sha1: 0101010101010101010101010101010101010101\r\nX-Bz-Upload-Timestamp: 2000\r\nX-Bz-Info-src_last_modified_millis: 1%20%25\r\nConnection: close\r\n\r\n";

const PART: &str =
    "HTTP/1.1 206 Partial Content\r\nContent-Type: text/plain\r\nContent-Length: 2\r\nContent-Range: bytes 1-2/5\r\nAccept-Ranges: bytes\r\nX-Bz-File-Id: 4_z00000001_f0000000000000002\r\nX-Bz-File-Name: a%20b/%C3%A9\r\nX-Bz-Content-Sha1: unverified:0101010101010101010101010101010101010101\r\nX-Bz-Upload-Timestamp: 2000\r\nX-Bz-Info-src_last_modified_millis: 1%20%25\r\nConnection: keep-alive\r\n\r\n";

// The head of a reply with all of a content.
fn whole_head(alloc: Global, file: ShownFile) -> Result<Text, Memory> {
    let answer: AnswerOf<Extent> = AnswerOf::Content(ContentOf {
        file,
        content: List::of(Vec::new(alloc)),
        range: None,
    });
    let head = reply_head(alloc, &answer, 5, false);
    drop(answer);
    head
}

// The head of a reply with two bytes of a content of five.
fn part_head(alloc: Global, file: ShownFile) -> Result<Text, Memory>
    requires { file.length ≡ 5 }
{
    let span = Span { at: 1, len: 2 };
    let answer: AnswerOf<Extent> = AnswerOf::Content(ContentOf {
        file,
        content: List::of(Vec::new(alloc)),
        range: Some(span),
    });
    let head = reply_head(alloc, &answer, 2, true);
    drop(answer);
    head
}

#[test]
fn contents(rt: HostRuntime) -> Result<(), Fail> {
    let alloc = rt.alloc();
    let whole = file(alloc, Mark::Verified)?;
    assert_eq!(rt; whole_head(alloc, whole)?.get(), WHOLE);
    let part = file(alloc, Mark::Unverified)?;
    if part.length != 5 {
        return Err(Fail::from("another length"));
    }
    assert_eq!(rt; part_head(alloc, part)?.get(), PART);
    Ok(())
}

fn refusal_head(alloc: Global, kind: FaultKind, stay: bool) -> Result<Text, Memory> {
    let answer: AnswerOf<Extent> = AnswerOf::Refused(Fault::plain(kind));
    let head = reply_head(alloc, &answer, 83, stay);
    drop(answer);
    head
}

#[test]
fn refusals(rt: HostRuntime) -> Result<(), Fail> {
    let alloc = rt.alloc();
    assert_eq!(rt;
        refusal_head(alloc, FaultKind::Range, false)?.get(),
        "HTTP/1.1 416 Range Not Satisfiable\r\nContent-Type: application/json;charset=utf-8\r\nContent-Length: 83\r\nConnection: close\r\n\r\n"
    );
    assert_eq!(rt;
        refusal_head(alloc, FaultKind::NoFile, true)?.get(),
        "HTTP/1.1 404 Not Found\r\nContent-Type: application/json;charset=utf-8\r\nContent-Length: 83\r\nConnection: keep-alive\r\n\r\n"
    );
    Ok(())
}
