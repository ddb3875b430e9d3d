// Tests of lines, and of the requests that they say.
#![tactic(auto)]

#[cfg(test)]
mod tests {
    use script::{Request, Way, parse};
    use std::process::Abort;

    fn says(rt: &impl Abort, line: &[u8], request: Request) {
        assert_eq!(rt; parse(line), Some(request));
    }

    fn says_nothing(rt: &impl Abort, line: &[u8]) {
        assert_eq!(rt; parse(line), None);
    }

    #[test]
    fn every_request(rt: HostRuntime) {
        says(&rt, b"open 3", Request::Open(3));
        says(&rt, b"comes 0 17", Request::Comes(0, 17));
        says(&rt, b"goes 1 5", Request::Goes(1, 5));
        says(&rt, b"ask 0 1 take", Request::Ask(0, 1, Way::Take));
        says(&rt, b"ask 0 1 join", Request::Ask(0, 1, Way::Join));
        says(&rt, b"list 0", Request::List(0));
        says(&rt, b"letter 0 8", Request::Letter(0, 8));
    }

    #[test]
    fn blanks(rt: HostRuntime) {
        says(&rt, b"  open \t 3 \r", Request::Open(3));
        says(&rt, b"\task\t0  1\ttake\r", Request::Ask(0, 1, Way::Take));
        says_nothing(&rt, b"");
        says_nothing(&rt, b" \t\r");
        says_nothing(&rt, b"open3");
        says_nothing(&rt, b"open\n3");
    }

    #[test]
    fn other_words(rt: HostRuntime) {
        says_nothing(&rt, b"shut 3");
        says_nothing(&rt, b"Open 3");
        says_nothing(&rt, b"opens 3");
        says_nothing(&rt, b"ask 0 1 give");
        says_nothing(&rt, b"letter 0 8 8");
        says_nothing(&rt, b"list 0 take");
        says_nothing(&rt, b"ask 0 1 take take");
        says_nothing(&rt, b"open");
        says_nothing(&rt, b"comes 0");
        says_nothing(&rt, b"ask 0 1");
    }

    #[test]
    fn numbers(rt: HostRuntime) {
        says(&rt, b"open 18446744073709551615", Request::Open(u64::MAX));
        says_nothing(&rt, b"open 18446744073709551616");
        says_nothing(&rt, b"open 100000000000000000000000");
        says_nothing(&rt, b"open 03");
        says_nothing(&rt, b"open +3");
        says_nothing(&rt, b"open -3");
        says_nothing(&rt, b"open 3a");
        says_nothing(&rt, b"open 3\xff");
        says_nothing(&rt, b"open 1:2");
        says_nothing(&rt, b"goes x 5");
    }
}
