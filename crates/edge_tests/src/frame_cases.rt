// Inputs and their frames, computed apart from this crate.

/// A line is `[INPUT] CONTENT|CONTENT|REST`, with `%` and two hexadecimal digits for a byte that isn't printed.
pub static CASES: &str = "\
    [] Empty\n\
    [%0D%0A] Bad 2 NoLength\n\
    [content-length: 2%0D%0A{}] Open\n\
    [Content-Length: 2%0D%0A%0D%0A{}] {}|Empty\n\
    [Content-Length: x%0D%0A] Bad 0 BadLength\n\
    [Content-Length: 2%0D%0AContent-Length: 02%0D%0A%0D%0A{}] {}|Empty\n\
    [Content-Length: 2%0D%0AContent-Length: 3%0D%0A%0D%0A] Bad 19 BadLength\n\
    [Content-Length:2%0D%0A%0D%0Aab] ab|Empty\n\
    [Content-Length: %092 %09%0D%0A%0D%0Aab] ab|Empty\n\
    [Content-Length: 16777216%0D%0A%0D%0A] Open\n\
    [Content-Length: 16777217%0D%0A] Bad 0 ContentLong\n\
    [Content-Length: 00000000000000000000000000000000000000002%0D%0A%0D%0Aab] ab|Empty\n\
    [Content-Length: 99999999999999999999999%0D%0A] Bad 0 ContentLong\n\
    [X%0D%0A] Bad 0 BadField\n\
    [X%0A] Open\n\
    [X: a%0Ab%0D%0A] Bad 0 BadField\n\
    [X: a%0Db%0D%0A] Bad 0 BadField\n\
    [: v%0D%0A] Bad 0 BadField\n\
    [a b: v%0D%0A] Bad 0 BadField\n\
    [A:%0D%0A%0D%0A] Bad 6 NoLength\n\
    [Content-Type: t%0D%0AContent-Length: 0%0D%0A%0D%0AContent-Length: 1%0D%0A%0D%0A] |Open\n\
    [Content-Length: 1%0D%0A%0D%0A] Open\n\
    [Content-Length: +1%0D%0A] Bad 0 BadLength\n\
    [Content-Length: 1 1%0D%0A] Bad 0 BadLength\n\
    [Content-Length: %0D%0A] Bad 0 BadLength\n\
    [CONTENT-LENGTH: 1%0D%0A%0D%0AxContent-Length: 1%0D%0A%0D%0Ay] x|y|Empty\n\
    [%80: v%0D%0A] Bad 0 BadField\n\
    [%7Fa: v%0D%0A] Bad 0 BadField\n\
    [~: v%0D%0A%0D%0A] Bad 8 NoLength\n\
    [Content-Length: 2%0B%0D%0A] Bad 0 BadLength\n\
    [10Content-Length: 10content-length:Content-Length: {}Content-Type: x%0A] Open\n\
    [content-length:%0D%0A%0D%0A-1 Content-Length: :%09abc] Bad 0 BadLength\n\
    [10%0D%0A%0A0 %09] Bad 0 BadField\n\
    [Content-Length: %0D-1%0D%0A%09] Bad 0 BadField\n\
    [%0D%0A%0D%0A%0D%0D%0A%0D%0A2abc%0D%0A] Bad 2 NoLength\n\
    [ 10 10content-length:00710-1Content-Length: ] Open\n\
    [content-length:10%0D%0A2:abcContent-Length: 10abc] Open\n\
    [%0D%0A%0A] Bad 2 NoLength\n\
    [0abc{}%FFContent-Length: %0D:-1] Open\n\
    [210%09%0A%0D%0A%0D%0A%0D%0A%0Acontent-length:] Bad 0 BadField\n\
    [{}content-length: 2%0910] Open\n\
    [2:-1%0D%0A%0D%0A%0D%0A%FF%0D] Bad 8 NoLength\n\
    [%09abcabc%0A-1X: %0D%0A{}Content-Type: x] Bad 0 BadField\n\
    [%0D%0D%0A%0A:2{} 007] Bad 0 BadField\n\
    [ Content-Length: %0D:X: 0] Open\n\
    [Content-Type: xContent-Length: %0A] Open\n\
    [%0A%09Content-Length: 10210%0AContent-Type: x] Open\n\
    [00710%0D%0A%0D%0A%FF10%0D%0A] Bad 0 BadField\n\
    [X: ] Open\n\
    [ 10007%0D%0A] Bad 0 BadField\n\
    [0 10%09%0D%0A%0D%0A-1] Bad 0 BadField\n\
    [abc%09Content-Length: %0D%0A0] Bad 0 BadField\n\
    [ content-length:{}%0D%0AX: 007abcX: 2] Bad 0 BadField\n\
    [X: %0A] Open\n\
    [Content-Type: x] Open\n\
    [content-length:2%09] Open\n\
    [007%0D%0A] Bad 0 BadField\n\
    [Content-Length: :100 %FFabc{}] Open\n\
    [007Content-Length: -1%0D%0A%0D%0A%0D%0A%0D%0A%0D%0A%09] Bad 25 NoLength\n\
    [%FFcontent-length:] Open\n\
    [%0D%0A%0D%0A%09-1] Bad 2 NoLength\n\
    [007%09%FF10{}] Open\n\
    [X:  ] Open\n\
    [%0DContent-Length: %FF{}%092Content-Length: abc] Open\n\
    [ :abc%0Acontent-length:%0D%0A%09] Bad 0 BadField\n\
    [%0D] Open\n\
    [%0D%0A%0D%0A:Content-Length: %09%09:content-length::] Bad 2 NoLength\n\
    [%0D%0D%0A%0D%0D%0D%0A%0D%0A2 ] Bad 0 BadField\n\
    [:%0D%0A%0D%0A%0D%0A-1Content-Type: x%0A:] Bad 0 BadField\n\
    [100%FF%0D%0A2%0D%0A-1] Bad 0 BadField\n\
    [10:] Open\n\
    [2%0D:%0A2-1{}%FF] Open\n\
    [Content-Type: x%0A007Content-Length: content-length:-1Content-Type: x10007] Open\n\
    [{}%0D%0A{}:content-length:] Bad 0 BadField\n\
    [%0D%0Dcontent-length:Content-Type: x2{}] Open\n\
    [%FF:%0D%0A%0D%0A%09content-length:] Bad 0 BadField\n\
    [%0D%0AContent-Type: x%FF:0:Content-Type: x] Bad 2 NoLength\n\
    [0%0D%0A%0D%0A-10-12%0D%0A%0D%0A%0D%0A] Bad 0 BadField\n\
    [:content-length:] Open\n\
    [ 0] Open\n\
    [2007 {}%FF%0D%0A%0D%0A] Bad 0 BadField\n\
    [007007007%FF%FFabccontent-length:] Open\n\
    [10] Open\n\
    [%0D%0A%0D%0A%09Content-Type: x%0D%0A:%0D%0A%0D%0A] Bad 2 NoLength\n\
    [%FFContent-Type: xContent-Length: content-length:] Open\n\
    [ %090007] Open\n\
    [0Content-Type: x0 %0A] Open\n\
    [%0D%0A0] Bad 2 NoLength\n\
    [02%0Dabc abc007Content-Length: :] Open\n\
    [%09X: %0A:Content-Type: x%0D%0A%0A] Bad 0 BadField\n\
    [%0D%0A%0D%0A%0A%0D%0A%0D%0AX: %0D] Bad 2 NoLength\n\
    [-110 %0AContent-Type: x%09] Open\n\
    [{}Content-Length: %0D%0A%0D%0A%0D%0A:-1Content-Length: %0A] Bad 22 NoLength\n\
    [{}%09007Content-Length: {}%092] Open\n\
    [X:  0%0Dabc%0D ] Open\n\
    [%0D%0D%0A%0D%0A%FF%09007] Bad 0 BadField\n\
    [abc%0A%0D%0A%0D%0A] Bad 0 BadField\n\
    [%09abcContent-Type: x  %0A-1] Open\n\
    [X: {}%0A22%0D%0A%0D%0Acontent-length:] Bad 0 BadField\n\
    [%0D%0AX:  ] Bad 2 NoLength\n\
    [10%0A%09%0D] Open\n\
    [abcabc0%0D:] Open\n\
    [{}%0D%0AContent-Length: Content-Length: ] Bad 0 BadField\n\
    [%0D%0A10%0D%0A%0D%0AX: %0D%0A:%FF] Bad 2 NoLength\n\
    [Content-Type: x1022%0D] Open\n\
    [%0AContent-Type: x%FF%0A%0D%0A0] Bad 0 BadField\n\
    [Content-Length: 007content-length::] Open\n\
    [%09%0D%0A%09-1%FF%09007] Bad 0 BadField\n\
    [X: %09%0D] Open\n\
    [Content-Type: xContent-Type: x:%0D%0A{}10] Open\n\
    [10 ] Open\n\
    [X: %0D%0A] Open\n\
    [%0D%0A%09content-length:%0D%0AContent-Length:  %09%0D%0A%0D%0A] Bad 2 NoLength\n\
    [10content-length:2{}{}%0D%0A%0D%0A:-1] Bad 26 NoLength\n\
    [007 2:{}007Content-Length: %0A%0D] Open\n\
    [content-length:%0D%0A%0D%0AContent-Type: x abc{}%0D%0A%0D%0A%0A] Bad 0 BadLength\n\
    [X: 10%0D%0A%0D%0A%0D%0A%0D%0A%0D%0Acontent-length:Content-Length: %0D-1] Bad 9 NoLength\n\
    [ :Content-Length: %0D%0A{}%0A] Bad 0 BadField\n\
    [00710content-length:%0D%0AX: content-length:Content-Length: 10%0D%0A%0D%0A] Bad 62 NoLength\n\
    [{}%0D%0A%0D%0A::-1%0D%0A%0D%0A] Bad 0 BadField\n\
    [%0A:{}%0A] Open\n\
    [007%FF%0Aabc%0D10%FF%0D%0A%0D%0A%0D] Bad 0 BadField\n\
    [-1%0D] Open\n\
    [:%0D%0A%FFX: %FF00710] Bad 0 BadField\n\
    [ 00700722:abcabcX: ] Open\n\
    [%0D%0A%0D%0AContent-Type: x%09:] Bad 2 NoLength\n\
    [%0D%0A%0D%0A:] Bad 2 NoLength\n\
    [%0D%0A%FF%09 01010Content-Length: ] Bad 2 NoLength\n\
    [X: {}%FF] Open\n\
    [{}%0DContent-Length: Content-Length: -12] Open\n\
    [Content-Type: xcontent-length:] Open\n\
    [%0D%0A%0D%0A2%0D%0A] Bad 2 NoLength\n\
    [0%0A%0D%0A%0D%0Aabc%0A%FF] Bad 0 BadField\n\
    [ %0A] Open\n\
    [%09007] Open\n\
    [%09%0AX: %0D%0A%0D%0A%0D%0A{}] Bad 0 BadField\n\
    [Content-Type: x007] Open\n\
    [%0D%0A:2] Bad 2 NoLength\n\
    [abc%0910-12] Open\n\
    [%09Content-Length: Content-Length: ] Open\n\
    [007%0D] Open\n\
    [2Content-Length: -1abc{}%0D%0A%0D%0A%09] Bad 28 NoLength\n\
    [10{}10%0D%0A] Bad 0 BadField\n\
    [{}content-length:] Open\n\
    [{}] Open";
