// A first script: a unit comes online, and a READ of two blocks is polled, served, looked at and taken.

pub(super) const SCRIPT: &[u8] = b"credits 4
passing 2
longest 8
timeout 60
unit 0 10 2 1 1000
go
online 9 0
step 1
take
read 1 0 1024 40
status 2 1
take
step 1
look
step 1
take
";

/// Its report: the figure of the READ is its two blocks and twice the longest transfer of 8, and then 1.
pub(super) const REPORT: &[u8] = b"queued 9
serve 9 unit 0 block none seek 0 ended 0000
end 090000000000000089000000000000000000000001000000000000000000000000000000e803000001000000
queued 1
answered 2
end 0200000000000000820000000100000012000000
serve 1 unit 0 block 40 seek 2
figure 1 1
serve 1 unit 0 block 41 seek 0 ended 0000
end 0100000000000000a10000000004000000000000000000000000000000000000
steps 3 seeks 2 pending 0
";
