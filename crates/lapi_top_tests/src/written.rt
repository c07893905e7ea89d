use lapi_script::{line_text, read_input, write_input};
use std::test::Fail;

/// Each form, as it is written.
const CANONICAL: &str = "lapi 1
tasks 2 memory 64 counters 4 workers 1
task 0
store 4294967295 00ff
put 4294967295 0 1 4294967295 - - -
put 1 4294967295 0 1024 0 1 2
put 1 @0 16 257 - 4294967295 -
get 1 @3+4 0 8 0 -
putv 1 L:0:4,@1+8:12 S:16:4:8:2 - 0 -
getv 1 S:@2:4:5:6 L:7:8,15:0 - 10
rmw 1 add @0 1 8 -
rmw 1 or 0 2 8 0
rmw 1 swap 4 3 8 1
rmw 1 cas 0 1 2 8 3
amsend 1 0 - 0 4 0 - -
amsend 0 15 00ff 1 2 - 3 4
waitcntr 0 4294967295
fence
task 1
address_init 4294967295
setcntr 4294967295 0
getcntr 3
gfence
schedule
15 step 1
0 poll 1
3 tick 1
0 deliver 1 0 4294967295
0 cut 1 0 4294967295 0
1 inject 0 1 -
1 inject 1 0 00ff
2 begin 1 0
0 end 0 0
done
";

/// The same in another spelling.
const OTHER: &str = "  lapi   1 
tasks 2 memory 64 counters 4 workers 1
# no task before this one
task 0
store 4294967295 00Ff

   
put 4294967295 0 1 4294967295 - - -
put 1 4294967295 0 1024 0 1 2
#
put 1 @0+0 16 257 - 4294967295 -
get 1 @3+4 0 8 0 -
putv 1 L:0:4,@1+8:12 S:16:4:8:2 - 0 -
getv 1 S:@2+0:4:5:6   L:7:8,15:0 - 10
rmw 1 add @0+0 1 8 -
rmw 1 or 0 2 8 0
rmw 1 swap 4 3 8 1
rmw 1 cas 0 1 2 8 3
amsend 1 0 - 0 4 0 - -
amsend 0 15 00fF 1 2 - 3 4
waitcntr 0 4294967295
 fence
task 1
address_init 4294967295
setcntr 4294967295 0
getcntr 3
gfence 
schedule
15 step 1
0   poll 1 
3 tick 1
0 deliver 1 0 4294967295
0 cut 1 0 4294967295 0
1 inject 0 1   -
1 inject 1 0 00Ff
2 begin 1 0
0 end 0 0
done
#done
   # lapi 1";

/// The lines of the schedule.
const LINES: [&str; 9] = [
    "15 step 1",
    "0 poll 1",
    "3 tick 1",
    "0 deliver 1 0 4294967295",
    "0 cut 1 0 4294967295 0",
    "1 inject 0 1 -",
    "1 inject 1 0 00ff",
    "2 begin 1 0",
    "0 end 0 0",
];

#[test]
fn inputs_are_written_canonically(rt: HostRuntime) -> Result<(), Fail> {
    let alloc = rt.alloc();
    for text in [CANONICAL, OTHER] {
        let input = read_input(alloc, text.as_bytes())?;
        let schedule = input.schedule.as_slice();
        let again = write_input(alloc, &input.script, schedule)?;
        assert_eq!(rt; again.as_slice(), CANONICAL.as_bytes());
        assert_eq!(rt; schedule.len(), LINES.len());
        for (line, text) in schedule.iter().zip(LINES) {
            assert_eq!(rt; line_text(alloc, line)?.as_slice(), text.as_bytes());
        }
    }
    Ok(())
}
