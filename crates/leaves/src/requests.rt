// The requests of G7.
ghost use Rattle.std.specs.Prelude.{◌≡◌, length};
ghost use Rattle.record_octets.specs.Record.{size_of_requests, requests_in};

use cells::load_flag;
use header::Requests;
use record_octets::in_requests;

pub fn load_requests(x: &[u8]) -> Requests
    requires { length x.now ≡ size_of_requests }
    ensures { result ≡ requests_in x.now }
{
    let machine = load_flag(&x[in_requests::MACHINE..in_requests::ACKNOWLEDGE]);
    let acknowledge = load_flag(&x[in_requests::ACKNOWLEDGE..in_requests::REPLY]);
    let reply = load_flag(&x[in_requests::REPLY..in_requests::END]);
    Requests {
        machine,
        acknowledge,
        reply,
    }
}
