// Laws of what a worker says of its connections.
ghost use Rattle.kp_worker.specs.Singles.{EachByItself};

/// Where all Clients and Hangups are what all streams ask for, those of each connection are what its own stream asks for.
pub fn each_by_itself<M>()
    ensures { EachByItself M }
{}
